// What is expected of a run.
use crate::known::Known;
use crate::run::Seen;
use crate::texts::packet_of;
use std::alloc::{AllocError, Global};
use ts_io::Packet;

#[derive(Drop)]
pub(crate) struct Expected {
    alloc: Global,
    // The packets that were let out.
    sent: Vec<Packet>,
    output: Vec<u8>,
    // The content of the journal, and its length at each sync.
    has: Vec<u8>,
    synced: Vec<usize>,
    status: u8,
    error: Vec<u8>,
}

impl Expected {
    // A run that has nothing to do, and ends well.
    pub(crate) fn new(alloc: Global) -> Result<Self, AllocError> {
        Ok(Expected {
            alloc,
            sent: Vec::new(alloc),
            output: Vec::from_slice(alloc, b"ready here\n")?,
            has: Vec::new(alloc),
            synced: Vec::new(alloc),
            status: 0,
            error: Vec::new(alloc),
        })
    }

    // Takes a line that says what is expected. Returns whether it is one.
    pub(crate) fn take(
        &mut self,
        known: &Known,
        verb: &str,
        text: &str,
    ) -> Result<bool, AllocError> {
        match verb {
            "sent" => return self.add_sent(text),
            "line" => push_line(&mut self.output, text)?,
            "no-output" => self.output.clear(),
            "has" => return known.set_content(&mut self.has, text),
            "synced" => return self.add_synced(known, text),
            "status" => return Ok(set_status(&mut self.status, text)),
            "error" => push_line(&mut self.error, text)?,
            _ => return Ok(false),
        }
        Ok(true)
    }

    fn add_sent(&mut self, text: &str) -> Result<bool, AllocError> {
        let Some(packet) = packet_of(self.alloc, text)? else {
            return Ok(false);
        };
        self.sent.push(packet)?;
        Ok(true)
    }

    fn add_synced(&mut self, known: &Known, text: &str) -> Result<bool, AllocError> {
        let mut content = Vec::new(self.alloc);
        if !known.set_content(&mut content, text)? {
            return Ok(false);
        }
        self.synced.push(content.len())?;
        Ok(true)
    }

    // What of a run differs from this.
    pub(crate) fn difference(&self, seen: &Seen) -> Option<&'static str> {
        if !are_sent(seen.hub.sent(), &self.sent) {
            Some("the packets that were let out")
        } else if seen.out.bytes() != self.output.as_slice() {
            Some("the output")
        } else if seen.log.bytes() != self.has.as_slice() {
            Some("the journal")
        } else if seen.log.synced() != self.synced.as_slice() {
            Some("the syncs of the journal")
        } else if seen.status.code() != self.status {
            Some("the exit status")
        } else if seen.err.bytes() != self.error.as_slice() {
            Some("the line on standard error")
        } else {
            None
        }
    }
}

fn push_line(bytes: &mut Vec<u8>, line: &str) -> Result<(), AllocError> {
    bytes.extend_from_slice(line.as_bytes())?;
    bytes.push(b'\n')?;
    Ok(())
}

// Returns whether the text is a status.
fn set_status(status: &mut u8, text: &str) -> bool {
    match text.parse::<u8>() {
        Ok(number) => {
            *status = number;
            true
        }
        Err(_) => false,
    }
}

// Whether these packets are the expected ones.
fn are_sent(packets: &[Packet], expected: &[Packet]) -> bool {
    let mut all = packets.len() == expected.len();
    for (packet, other) in packets.iter().zip(expected) {
        all = all && packet.link == other.link && packet.bytes.as_slice() == other.bytes.as_slice();
    }
    all
}
