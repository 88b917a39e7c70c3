// The exit status of a run, and its line on standard error.
ghost use Rattle.std.specs.Prelude.{◌≡◌, ◌≢◌, ◌⊎◌, ◌≤◌};
ghost use Rattle.ts_io.specs.Causes.{Rose};
ghost use Rattle.ts_engine.specs.Status.{status_of, place_of};
ghost use Rattle.ts_engine.specs.Top.{Reports, ReportsHost, ReportsIn};

use crate::piped::End;
use ts_io::{Sink, write_all_counted};
use ts_words::{LastCauses, Mode, Status, host_line, line};

/// The most bytes of the line of a status.
const ROOM: usize = 160;

impl End {
    // The exit status for this end.
    pub(crate) fn status(self) -> Status
        ensures { result ≡ status_of self }
    {
        match self {
            End::Ended => Status::Ended,
            End::Truncated(_) => Status::Truncated,
            End::Protocol(_) => Status::Protocol,
            End::ReadFault => Status::ReadFault,
            End::WriteFault => Status::WriteFault,
            End::Memory => Status::Memory,
            End::Budget => Status::Budget,
        }
    }

    // The offset in the status line; 0 if it has none.
    pub(crate) fn place(self) -> u64
        ensures { result ≡ place_of self }
    {
        match self {
            End::Truncated(place) => place,
            End::Protocol(fault) => fault.place,
            End::Ended | End::ReadFault | End::WriteFault | End::Memory | End::Budget => 0,
        }
    }
}

// Writes the status line, if there is one. Returns the status, or `WriteFault` if the line could not be written.
pub(crate) fn report<E: Sink>(err: &mut E, status: Status, place: u64) -> Status
    ensures reported { Reports status place result (E.has err.old) (E.has err.new) }
    ensures later { E.faults err.old ≤ E.faults err.new }
    ensures cause { result ≡ Status.WriteFault → (status ≡ Status.WriteFault)
        ⊎ Rose (E.faults err.old) (E.faults err.new) }
    ensures same { result ≡ Status.WriteFault ⊎ result ≡ status }
    ensures good { status ≡ Status.Ended → result ≡ Status.Ended }
    ensures no_fault { result ≢ Status.WriteFault → E.faults err.new ≡ E.faults err.old }
{
    report_in(None, err, status, place)
}

// The same with the line that the status has in this mode.
pub(crate) fn report_in<E: Sink>(
    mode: Option<Mode>,
    err: &mut E,
    status: Status,
    place: u64,
) -> Status
    ensures reported { ReportsIn mode status place result (E.has err.old) (E.has err.new) }
    ensures later { E.faults err.old ≤ E.faults err.new }
    ensures cause { result ≡ Status.WriteFault → (status ≡ Status.WriteFault)
        ⊎ Rose (E.faults err.old) (E.faults err.new) }
    ensures same { result ≡ Status.WriteFault ⊎ result ≡ status }
    ensures good { status ≡ Status.Ended → result ≡ Status.Ended }
    ensures no_fault { result ≢ Status.WriteFault → E.faults err.new ≡ E.faults err.old }
{
    if status == Status::Ended {
        return status;
    }
    let mut room = [0; ROOM];
    match write_all_counted(err, line(mode, status, place, &mut room)) {
        Ok(()) => status,
        Err(_) => Status::WriteFault,
    }
}

// The same with the line that the status has in the mode `host`.
pub(crate) fn report_host<E: Sink>(
    err: &mut E,
    status: Status,
    place: u64,
    causes: LastCauses,
) -> Status
    ensures reported { ReportsHost causes status place result (E.has err.old) (E.has err.new) }
    ensures later { E.faults err.old ≤ E.faults err.new }
    ensures cause { result ≡ Status.WriteFault → (status ≡ Status.WriteFault)
        ⊎ Rose (E.faults err.old) (E.faults err.new) }
    ensures same { result ≡ Status.WriteFault ⊎ result ≡ status }
    ensures good { status ≡ Status.Ended → result ≡ Status.Ended }
    ensures no_fault { result ≢ Status.WriteFault → E.faults err.new ≡ E.faults err.old }
{
    if status == Status::Ended {
        return status;
    }
    let mut room = [0; ROOM];
    match write_all_counted(err, host_line(status, place, causes, &mut room)) {
        Ok(()) => status,
        Err(_) => Status::WriteFault,
    }
}
