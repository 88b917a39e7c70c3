// Errors in the words of a request, with their messages, and errors of the parsing functions.
ghost use Rattle.std.specs.Prelude.{◌≡◌, Some, Err};
ghost use Rattle.ts_spec.specs.Grammar.{command};
ghost use Rattle.ts_spec.specs.Wire.{Request};
ghost use Rattle.ts_command.specs.FaultNames.{name_of};
ghost use Rattle.ts_command.specs.Faults.{message, fault_of, fault_of_word, IsNoMemory};
ghost use Rattle.ts_command.specs.Answers.{IsFaultIn};

use std::alloc::AllocError;
use std::fmt;
use thiserror::Error;
use ts_spec::ValueFault;

/// Why a request is not a valid command.
#[derive(Clone, Copy, PartialEq, Eq, Error)]
pub enum CommandFault {
    /// The first word is not a command.
    #[error("unknown command")]
    UnknownCommand,
    /// The command does not accept this number of arguments.
    #[error("wrong number of arguments")]
    Arity,
    /// A time is not a number of 1 to 19 digits, or is above `MAX_TIME`.
    #[error("invalid timestamp")]
    BadTimestamp,
    /// A value is not a decimal of 1 to 64 bytes, or is out of range.
    #[error("invalid value")]
    BadValue(ValueFault),
    /// A word is not an option of the command, or the arguments of an option are missing or malformed.
    #[error("invalid option")]
    BadOption,
    /// The same option appears twice.
    #[error("option given twice")]
    RepeatedOption,
    /// A label or its value is missing or empty.
    #[error("invalid labels")]
    BadLabels,
    /// The chunk size is not a multiple of 8 from 48 to 1048576 bytes.
    #[error("invalid chunk size")]
    BadChunkSize,
    /// A word is not a duplicate policy.
    #[error("invalid duplicate policy")]
    BadPolicy,
    /// A word is not a chunk encoding.
    #[error("invalid encoding")]
    BadEncoding,
    /// A word is not an aggregator.
    #[error("unknown aggregator")]
    UnknownAggregator,
    /// An aggregator of RedisTimeSeries that this server does not support.
    #[error("aggregator not supported")]
    AggregatorNotInProfile,
    /// The bucket duration is not a number from 1 to 10^14 milliseconds.
    #[error("invalid bucket duration")]
    BadDuration,
    /// A word is not a filter.
    #[error("invalid filter")]
    BadFilter,
    /// No filter requires a value.
    #[error("a filter with a wanted value is needed")]
    NoPositiveFilter,
    /// There is no memory to parse the request.
    #[error(transparent)]
    Memory(AllocError),
}

impl fmt::Debug for CommandFault {
    ghost debug_output = { λ fault. Some (name_of fault) };

    fn fmt<W: fmt::Write>(&self, f: &mut fmt::Formatter<W>) -> fmt::Result {
        f.write_str(match self {
            CommandFault::UnknownCommand => "UnknownCommand",
            CommandFault::Arity => "Arity",
            CommandFault::BadTimestamp => "BadTimestamp",
            CommandFault::BadValue(ValueFault::NotANumber) => "BadValue(NotANumber)",
            CommandFault::BadValue(ValueFault::OutOfRange) => "BadValue(OutOfRange)",
            CommandFault::BadOption => "BadOption",
            CommandFault::RepeatedOption => "RepeatedOption",
            CommandFault::BadLabels => "BadLabels",
            CommandFault::BadChunkSize => "BadChunkSize",
            CommandFault::BadPolicy => "BadPolicy",
            CommandFault::BadEncoding => "BadEncoding",
            CommandFault::UnknownAggregator => "UnknownAggregator",
            CommandFault::AggregatorNotInProfile => "AggregatorNotInProfile",
            CommandFault::BadDuration => "BadDuration",
            CommandFault::BadFilter => "BadFilter",
            CommandFault::NoPositiveFilter => "NoPositiveFilter",
            CommandFault::Memory(_) => "Memory(AllocError)",
        })
    }
}

impl CommandFault {
    /// The text of the error reply.
    pub fn message(self) -> &'static str
        ensures { result.now ≡ message self }
    {
        match self {
            CommandFault::UnknownCommand => "ERR unknown command",
            CommandFault::Arity => "ERR wrong number of arguments",
            CommandFault::BadTimestamp => "ERR TSDB: invalid timestamp",
            CommandFault::BadValue(ValueFault::NotANumber) => "ERR TSDB: invalid value",
            CommandFault::BadValue(ValueFault::OutOfRange) => "ERR TSDB: value out of range",
            CommandFault::BadOption => "ERR TSDB: invalid option",
            CommandFault::RepeatedOption => "ERR TSDB: option given twice",
            CommandFault::BadLabels => "ERR TSDB: invalid labels",
            CommandFault::BadChunkSize => "ERR TSDB: invalid chunk size",
            CommandFault::BadPolicy => "ERR TSDB: invalid duplicate policy",
            CommandFault::BadEncoding => "ERR TSDB: invalid encoding",
            CommandFault::UnknownAggregator => "ERR TSDB: unknown aggregator",
            CommandFault::AggregatorNotInProfile => "ERR TSDB: aggregator not supported",
            CommandFault::BadDuration => "ERR TSDB: invalid bucket duration",
            CommandFault::BadFilter => "ERR TSDB: invalid filter",
            CommandFault::NoPositiveFilter => "ERR TSDB: a filter with a wanted value is needed",
            CommandFault::Memory(_) => "OOM out of memory",
        }
    }
}

// An error in the words after the command's name.
#[derive(Clone, Copy)]
pub(crate) enum WordFault {
    Arity,
    BadTimestamp,
    BadValue(ValueFault),
    BadOption,
    RepeatedOption,
    BadLabels,
    BadChunkSize,
    BadPolicy,
    BadEncoding,
    UnknownAggregator,
    AggregatorNotInProfile,
    BadDuration,
    BadFilter,
    NoPositiveFilter,
}

// Why words that may form a list could not be parsed.
#[derive(Clone, Copy)]
pub(crate) enum ReadFault {
    Word(WordFault),
    Memory(AllocError),
}

impl WordFault {
    // The same error as a command's.
    pub(crate) fn of_command(self) -> CommandFault
        ensures fault { fault_of result ≡ fault_of_word self }
        ensures no_memory { IsNoMemory result }
        ensures answer { (words : Request) → command words ≡ Err (fault_of_word self) → IsFaultIn words result }
    {
        match self {
            WordFault::Arity => CommandFault::Arity,
            WordFault::BadTimestamp => CommandFault::BadTimestamp,
            WordFault::BadValue(fault) => CommandFault::BadValue(fault),
            WordFault::BadOption => CommandFault::BadOption,
            WordFault::RepeatedOption => CommandFault::RepeatedOption,
            WordFault::BadLabels => CommandFault::BadLabels,
            WordFault::BadChunkSize => CommandFault::BadChunkSize,
            WordFault::BadPolicy => CommandFault::BadPolicy,
            WordFault::BadEncoding => CommandFault::BadEncoding,
            WordFault::UnknownAggregator => CommandFault::UnknownAggregator,
            WordFault::AggregatorNotInProfile => CommandFault::AggregatorNotInProfile,
            WordFault::BadDuration => CommandFault::BadDuration,
            WordFault::BadFilter => CommandFault::BadFilter,
            WordFault::NoPositiveFilter => CommandFault::NoPositiveFilter,
        }
    }
}

impl From<WordFault> for ReadFault {
    ghost use Rattle.ts_command.specs.declared.fault.ReadFault.TheVariants.{Word};

    ghost from_gives = { λ fault e. e ≡ Word fault };

    fn from(fault: WordFault) -> ReadFault {
        ReadFault::Word(fault)
    }
}

impl From<AllocError> for ReadFault {
    ghost use Rattle.ts_command.specs.declared.fault.ReadFault.TheVariants.{Memory};

    ghost from_gives = { λ error e. e ≡ Memory error };

    fn from(error: AllocError) -> ReadFault {
        ReadFault::Memory(error)
    }
}
