// The replies to results of the database, and to invalid arguments.
ghost use Rattle.std.specs.Prelude.{◌≡◌, ◌≤◌, pos, IfOk};
ghost use Rattle.ts_spec.specs.Keyed.{Keyed};
ghost use Rattle.ts_spec.specs.Replies.{number as shown, reply_to};
ghost use Rattle.ts_spec.specs.Response.{Done};
ghost use Rattle.ts_spec.specs.Sample.{MAX_TIME};
ghost use Rattle.ts_spec.specs.Text.{Error};
ghost use Rattle.ts_sample.specs.declared.sample.Id.{Id};
ghost use Rattle.ts_resp.specs.Replies.{reply_of};
ghost use Rattle.ts_command.specs.Faults.{message as fault_message};
ghost use Rattle.ts_execution.specs.Answers.{reply_of_done, reply_of_number};

use ts_command::CommandFault;
use ts_db::DbFault;
use ts_questions::refusal_reply;
use ts_resp::Reply;
use ts_sample::MAX_TIME;

/// The reply to a command that returns OK.
pub(crate) fn done_reply(outcome: Result<(), DbFault>) -> Reply
    ensures { (ids : Keyed Id) → reply_of result ≡ reply_of_done ids outcome }
{
    match outcome {
        Ok(()) => ok(),
        Err(fault) => refusal_reply(fault),
    }
}

/// The reply OK.
pub(crate) fn ok() -> Reply
    ensures { reply_of result ≡ reply_to Done }
{
    Reply::Simple("OK")
}

/// The reply to a command that returns a time or a count.
pub(crate) fn number_reply(outcome: Result<u64, DbFault>) -> Reply
    requires { IfOk outcome (λ t. t ≤ MAX_TIME) }
    ensures { (ids : Keyed Id) → reply_of result ≡ reply_of_number ids outcome }
{
    match outcome {
        Ok(answer) => number(answer),
        Err(fault) => refusal_reply(fault),
    }
}

/// The reply to a time or a count, as an integer.
pub(crate) fn number(number: u64) -> Reply
    requires { number ≤ MAX_TIME }
    ensures { reply_of result ≡ shown number }
{
    Reply::Int(signed(number))
}

fn signed(number: u64) -> i64
    requires { number ≤ MAX_TIME }
    ensures { result ≡ pos number }
{
    number as i64
}

/// The error reply to invalid arguments.
pub(crate) fn fault_reply(fault: CommandFault) -> Reply
    ensures { reply_of result ≡ Error (fault_message fault) }
{
    Reply::Error(fault.message())
}
