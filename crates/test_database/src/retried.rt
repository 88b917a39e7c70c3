// A database whose calls are made again if they run out of memory. Such a call must leave all keys unchanged. With
// ample memory none fails: bench/refuse-each makes each allocation fail, one per run.
use crate::db::DbCalls;
use crate::state::state_text;
use crate::texts::split;
use std::alloc::Global;
use std::sync::ledger::Ledger;
use std::{io, mem};
use test_script::{Device, answer_of};
use ts_db::Db;
use ts_sample::Steps;
use ts_spec::Limits;

/// `Retried` and its limits, as those of `Db`, whose calls it has. A call that changed a key though it ran out of
/// memory has the answer `changed`.
#[derive(Drop)]
pub(crate) struct RetriedCalls<L: Ledger> {
    calls: DbCalls<L>,
    limits: Limits,
    // The calls so far.
    made: Vec<String>,
}

impl<L: Ledger> RetriedCalls<L> {
    pub(crate) fn new(alloc: Global, limits: Limits, db: Db, steps: Steps<L>) -> Self {
        RetriedCalls {
            calls: DbCalls::new(alloc, db, steps),
            limits,
            made: Vec::new(alloc),
        }
    }

    // Whether the database has the state after the calls so far.
    fn is_unchanged(&mut self, alloc: Global) -> io::Result<bool> {
        let limits = Limits {
            samples: self.limits.samples.max(1),
            ..self.limits
        };
        let failed = mem::replace(&mut self.calls.db, Db::new(alloc, limits));
        for line in &self.made {
            let (verb, text) = split(line.as_str());
            self.calls.answer(alloc, verb, text)?;
        }
        let calls = &mut self.calls;
        let before = state_text(alloc, &calls.db, &mut calls.steps)?;
        calls.db = failed;
        Ok(state_text(alloc, &calls.db, &mut calls.steps)? == before)
    }
}

impl<L: Ledger> Device for RetriedCalls<L> {
    fn answer(&mut self, alloc: Global, verb: &str, text: &str) -> io::Result<Option<String>> {
        let mut answer = self.calls.answer(alloc, verb, text)?;
        if let Some(told) = &answer
            && told.as_str() == "Memory(AllocError)"
        {
            if !self.is_unchanged(alloc)? {
                return answer_of(alloc, "changed");
            }
            answer = self.calls.answer(alloc, verb, text)?;
        }
        self.made.push(format!(in alloc; "{verb} {text}")?)?;
        Ok(answer)
    }
}
