// Reads the record of a rule.
ghost use Rattle.std.specs.Prelude.{◌≡◌, ◌≤◌, drop, length, option_map, Ok, IfSome};
ghost use Rattle.ts_command.specs.Reading.{command_of};
ghost use Rattle.ts_restore.specs.Summaries.{summary_of};
ghost use Rattle.ts_checkpoint.specs.Parts.{value_of};
ghost use Rattle.ts_checkpoint.specs.PartOf.{rule_part, rule_numbers, summary_in, created_rule};
ghost use Rattle.ts_checkpoint.specs.Reading.{Reads, numbers_of};

use crate::numbers::{integer, small_number_in, time_in, time_or_none, value_in};
use crate::part::{Part, PartFault, RuleRecord};
use crate::read_series::read_command;
use ts_command::Command;
use ts_resp::Word;
use ts_restore::SummaryParts;

#[tactic(auto, unfolding(crate::specs::PartOf::rule_part))]
pub(crate) fn read_rule(words: Vec<Word>) -> Result<Part, PartFault>
    ensures { Reads (rule_part (drop 1 words.items)) result }
{
    let Some(numbers) = read_rule_numbers(words.as_slice()) else {
        return Err(PartFault::Refused);
    };
    let command = read_command(words, 9)?;
    created_rule(numbers, command).ok_or(PartFault::Refused)
}

// The numbers of a rule.
#[derive(Clone, Copy)]
struct RuleNumbers {
    made: u32,
    current: Option<u64>,
    running: SummaryParts,
}

// The numbers of a rule after the name.
#[tactic(auto, unfolding(crate::specs::PartOf::rule_numbers))]
fn read_rule_numbers(words: &[Word]) -> Option<RuleNumbers>
    ensures value { rule_numbers (drop 1 words.now) ≡ option_map numbers_of result }
    ensures words { IfSome result (λ _. 9 ≤ length words.now) }
{
    let [_, made, start, summary @ ..] = words else {
        return None;
    };
    let made = small_number_in(1, u32::MAX, made.bytes())?;
    let current = time_or_none(start.bytes())?;
    let running = read_summary(summary)?;
    Some(RuleNumbers {
        made,
        current,
        running,
    })
}

// The rule that a command creates.
fn created_rule(numbers: RuleNumbers, command: Command) -> Option<Part>
    ensures { created_rule numbers.made numbers.current (summary_of numbers.running) (Ok (command_of command))
        ≡ option_map value_of result }
{
    let RuleNumbers {
        made,
        current,
        running,
    } = numbers;
    match command {
        Command::CreateRule {
            source,
            dest,
            agg,
            grid,
        } => {
            if source == dest || (current.is_none() && running.count != 0) {
                return None;
            }
            Some(Part::Rule(RuleRecord {
                source,
                dest,
                agg,
                grid,
                made,
                current,
                running,
            }))
        }
        _ => None,
    }
}

// The six numbers at the front of these words.
#[tactic(auto, unfolding(crate::specs::PartOf::summary_in))]
fn read_summary(words: &[Word]) -> Option<SummaryParts>
    ensures value { summary_in words.now ≡ option_map summary_of result }
    ensures words { IfSome result (λ _. 6 ≤ length words.now) }
{
    let [count, sum, least, greatest, first, last, ..] = words else {
        return None;
    };
    Some(SummaryParts {
        count: time_in(count.bytes())?,
        sum: integer(sum.bytes())?,
        least: value_in(least.bytes())?,
        greatest: value_in(greatest.bytes())?,
        first: value_in(first.bytes())?,
        last: value_in(last.bytes())?,
    })
}
