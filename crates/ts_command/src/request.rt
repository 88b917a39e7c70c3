// The entry point: finds the command by its name, checks the number of arguments, and parses them.
ghost use Rattle.std.specs.Prelude.{◌≡◌, option_map, drop, IfOk, IfErr, IsTrue};
ghost use Rattle.ts_spec.specs.Names.{named};
ghost use Rattle.ts_spec.specs.Grammar.{commands, command};
ghost use Rattle.ts_command.specs.Forms.{form_of};
ghost use Rattle.ts_command.specs.Answers.{HasTime, IsFaultIn};
ghost use Rattle.ts_command.specs.Faults.{MatchesOrMemory};
ghost use Rattle.ts_command.specs.Reading.{command_of};

use crate::command::Command;
use crate::fault::{CommandFault, ReadFault};
use crate::forms::{Sign, read_add, read_alter, read_create, read_del_range, read_incr};
use crate::queries::{read_last_of_many, read_many_ranges, read_query_index, read_range};
use crate::simple_commands::{
    read_create_rule, read_delete_rule, read_drop, read_echo, read_exists, read_get, read_info,
    read_ping,
};
use crate::triple::read_madd;
use ts_agg::named;
use ts_resp::Word;

#[derive(Clone, Copy)]
pub(crate) enum Verb {
    Create,
    Alter,
    Add,
    Madd,
    IncrBy,
    DecrBy,
    DelRange,
    CreateRule,
    DeleteRule,
    Range,
    RevRange,
    MRange,
    MRevRange,
    Get,
    MGet,
    QueryIndex,
    Info,
    Ping,
    Echo,
    Quit,
    Drop,
    Exists,
}

// The most frequent commands, in a table short enough to search without a loop.
const WRITES: [(&[u8], Verb); 6] = [
    (b"TS.CREATE", Verb::Create),
    (b"TS.ALTER", Verb::Alter),
    (b"TS.ADD", Verb::Add),
    (b"TS.MADD", Verb::Madd),
    (b"TS.INCRBY", Verb::IncrBy),
    (b"TS.DECRBY", Verb::DecrBy),
];

const OTHERS: [(&[u8], Verb); 16] = [
    (b"TS.DEL", Verb::DelRange),
    (b"TS.CREATERULE", Verb::CreateRule),
    (b"TS.DELETERULE", Verb::DeleteRule),
    (b"TS.RANGE", Verb::Range),
    (b"TS.REVRANGE", Verb::RevRange),
    (b"TS.MRANGE", Verb::MRange),
    (b"TS.MREVRANGE", Verb::MRevRange),
    (b"TS.GET", Verb::Get),
    (b"TS.MGET", Verb::MGet),
    (b"TS.QUERYINDEX", Verb::QueryIndex),
    (b"TS.INFO", Verb::Info),
    (b"PING", Verb::Ping),
    (b"ECHO", Verb::Echo),
    (b"QUIT", Verb::Quit),
    (b"DEL", Verb::Drop),
    (b"EXISTS", Verb::Exists),
];

impl Verb {
    pub(crate) fn named(word: &[u8]) -> Option<Verb>
        ensures { option_map form_of result ≡ named commands word.now }
    {
        match named(&WRITES, word) {
            Some(verb) => Some(verb),
            None => named(&OTHERS, word),
        }
    }

    // Whether the command accepts a request of `count` words, its name included.
    pub(crate) fn takes(self, count: usize) -> bool
        ensures { result ≡ (form_of self).words count }
    {
        match self {
            Verb::Create | Verb::Alter => count >= 2,
            Verb::Add => count >= 4,
            Verb::Madd => count >= 4 && count % 3 == 1,
            Verb::IncrBy | Verb::DecrBy => count >= 3,
            Verb::DelRange => count == 4,
            Verb::CreateRule => matches!(count, 6 | 7),
            Verb::DeleteRule => count == 3,
            Verb::Range | Verb::RevRange => count >= 4,
            Verb::MRange | Verb::MRevRange => count >= 5,
            Verb::Get => matches!(count, 2 | 3),
            Verb::MGet => count >= 3,
            Verb::QueryIndex => count >= 2,
            Verb::Ping => matches!(count, 1 | 2),
            Verb::Info | Verb::Echo => count == 2,
            Verb::Quit => count >= 1,
            Verb::Drop | Verb::Exists => count >= 2,
        }
    }
}

/// Parses a request into a command and moves its words into it. Returns the first error: in the name, then the number
/// of arguments, then the arguments from left to right. Only TS.MADD, labels, filters and the times of FILTER_BY_TS
/// allocate, after the name and the number of arguments have been checked. Returns `Memory` if there is no memory.
pub fn read(words: Vec<Word>) -> Result<Command, CommandFault>
    ensures ok { IfOk result (λ c. command words.items ≡ Ok (command_of c)) }
    ensures time { IfOk result HasTime }
    ensures fault { IfErr result (IsFaultIn words.items) }
{
    let Some(name) = words.first() else {
        return Err(CommandFault::UnknownCommand);
    };
    let Some(verb) = Verb::named(name.bytes()) else {
        return Err(CommandFault::UnknownCommand);
    };
    if !verb.takes(words.len()) {
        return Err(CommandFault::Arity);
    }
    match read_by(verb, words) {
        Ok(command) => Ok(command),
        Err(ReadFault::Word(fault)) => Err(fault.of_command()),
        Err(ReadFault::Memory(error)) => Err(CommandFault::Memory(error)),
    }
}

// Parses the words after the command's name.
fn read_by(verb: Verb, words: Vec<Word>) -> Result<Command, ReadFault>
    ensures command { MatchesOrMemory (IsTrue ((form_of verb).lists (drop 1 words.items))) command_of result
        ((form_of verb).says (drop 1 words.items)) }
    ensures time { IfOk result HasTime }
{
    match verb {
        Verb::Create => read_create(words),
        Verb::Alter => read_alter(words),
        Verb::Add => read_add(words),
        Verb::Madd => read_madd(words),
        Verb::IncrBy => read_incr(Sign::Plus, words),
        Verb::DecrBy => read_incr(Sign::Minus, words),
        Verb::DelRange => Ok(read_del_range(words)?),
        Verb::CreateRule => Ok(read_create_rule(words)?),
        Verb::DeleteRule => Ok(read_delete_rule(words)?),
        Verb::Range => read_range(false, words),
        Verb::RevRange => read_range(true, words),
        Verb::MRange => read_many_ranges(false, &words),
        Verb::MRevRange => read_many_ranges(true, &words),
        Verb::Get => Ok(read_get(words)?),
        Verb::MGet => read_last_of_many(&words),
        Verb::QueryIndex => read_query_index(&words),
        Verb::Info => Ok(read_info(words)?),
        Verb::Ping => Ok(read_ping(words)?),
        Verb::Echo => Ok(read_echo(words)?),
        Verb::Quit => Ok(Command::Quit),
        Verb::Drop => Ok(read_drop(words)?),
        Verb::Exists => Ok(read_exists(words)?),
    }
}
