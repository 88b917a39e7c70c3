// The record of a rule, and which rules read back from theirs.
use crate::words::{joined, small, word};
use std::alloc::Global;
use std::io;
use std::io::ErrorKind;
use test_script::{Device, Script, answer_of, silent};
use ts_bucket::Grid;
use ts_checkpoint::{RuleRecord, rule_reads_back, rule_record};
use ts_restore::SummaryParts;
use ts_spec::{Aggregator, Units};

/// `rule`, a rule of averages over buckets of 5 ms from the series s, which counts three samples. These calls set the
/// rest: `dest d`, `made 2`, `current 10` (or `none`), and in millionths `sum 7`, `least 7`, `greatest 7`, `first 7`
/// and `last 7`. `record` is the words of its record, and `reads-back` whether it reads back.
pub(crate) fn run(script: &mut Script) -> io::Result<()> {
    let alloc = script.alloc();
    let Some(grid) = Grid::new(0, 5) else {
        return Err(io::Error::from(ErrorKind::InvalidInput));
    };
    let running = SummaryParts {
        count: 3,
        sum: 0,
        least: Units::ZERO,
        greatest: Units::ZERO,
        first: Units::ZERO,
        last: Units::ZERO,
    };
    let rule = RuleRecord {
        source: word(alloc, "s")?,
        dest: word(alloc, "")?,
        agg: Aggregator::Avg,
        grid,
        made: 0,
        current: None,
        running,
    };
    script.run(&mut RuleCalls { rule })
}

#[derive(Drop)]
struct RuleCalls {
    rule: RuleRecord,
}

impl Device for RuleCalls {
    fn answer(&mut self, alloc: Global, verb: &str, text: &str) -> io::Result<Option<String>> {
        match verb {
            "dest" => self.rule.dest = word(alloc, text)?,
            "made" => self.rule.made = small(text),
            "current" => self.rule.current = text.parse::<u64>().ok(),
            "record" => return joined(alloc, &rule_record(alloc, &self.rule)?),
            "reads-back" => return answer_of(alloc, rule_reads_back(&self.rule)),
            _ => {
                if !set_part(&mut self.rule.running, verb, text) {
                    return Ok(None);
                }
            }
        }
        silent(alloc)
    }
}

// Sets a part of the summary. Returns whether it has this part.
fn set_part(running: &mut SummaryParts, part: &str, text: &str) -> bool {
    let number = text.parse::<i128>().unwrap_or(0);
    let value = Units::new(number).unwrap_or(Units::ZERO);
    match part {
        "sum" => running.sum = number,
        "least" => running.least = value,
        "greatest" => running.greatest = value,
        "first" => running.first = value,
        "last" => running.last = value,
        _ => return false,
    }
    true
}
