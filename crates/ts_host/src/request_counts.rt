// How many requests of each connection were executed.
ghost use Rattle.std.specs.Prelude.{◌≡◌, ℕ, OnOk, OnErr};
ghost use Rattle.ts_host.specs.Answers.{forgotten};
ghost use Rattle.ts_host.specs.RequestCounts.{executed_by, counted_at};

use std::alloc::{AllocError, Global};
use std::collections::BTreeMap;

/// The count of the connection whose bytes came last.
#[derive(Clone, Copy)]
pub(crate) struct CurrentCount {
    pub(crate) link: u64,
    pub(crate) executed: u64,
}

/// How many requests of each connection were executed. The current connection's count is looked up once.
#[derive(Drop)]
pub(crate) struct RequestCounts {
    counts: BTreeMap<u64, u64>,
    current: Option<CurrentCount>,
}

impl RequestCounts {
    /// Every count is 0. Allocates nothing.
    pub(crate) fn new(alloc: Global) -> Self
        ensures { (link : ℕ) → executed_by result link ≡ 0 }
    {
        RequestCounts {
            counts: BTreeMap::new(alloc),
            current: None,
        }
    }

    /// Makes this connection the current one. On an error no count changes.
    pub(crate) fn begin(&mut self, link: u64) -> Result<(), AllocError>
        ensures { (at : ℕ) → executed_by self.new at ≡ executed_by self.old at }
    {
        if let Some(current) = self.current
            && current.link == link
        {
            return Ok(());
        }
        match self.store() {
            Ok(()) => self.load(link),
            Err(failed) => Err(failed),
        }
    }

    // Stores the count of the current connection.
    fn store(&mut self) -> Result<(), AllocError>
        ensures same { (at : ℕ) → executed_by self.new at ≡ executed_by self.old at }
        ensures stored { OnOk result (self.new.current ≡ None) }
    {
        let Some(current) = self.current else {
            return Ok(());
        };
        match self.counts.insert(current.link, current.executed) {
            Ok(_) => {
                self.current = None;
                Ok(())
            }
            Err(_) => Err(AllocError),
        }
    }

    // Loads the count of a connection. Its entry is made, so that storing it again needs no memory.
    fn load(&mut self, link: u64) -> Result<(), AllocError>
        requires { self.old.current ≡ None }
        ensures { (at : ℕ) → executed_by self.new at ≡ executed_by self.old at }
    {
        let executed = match self.counts.get(&link) {
            Some(executed) => *executed,
            None => 0,
        };
        match self.counts.insert(link, executed) {
            Ok(_) => {
                self.current = Some(CurrentCount { link, executed });
                Ok(())
            }
            Err(_) => Err(AllocError),
        }
    }

    /// Counts a request of the current connection. Fails if it is another one, or its count is the greatest `u64`.
    pub(crate) fn count(&mut self, link: u64) -> Result<(), AllocError>
        ensures ok { OnOk result ((at : ℕ) → executed_by self.new at ≡ counted_at link (executed_by self.old) at) }
        ensures err { OnErr result (self.new ≡ self.old) }
    {
        match self.current {
            Some(current) if current.link == link && current.executed < u64::MAX => {
                let executed = current.executed + 1;
                self.current = Some(CurrentCount { link, executed });
                Ok(())
            }
            _ => Err(AllocError),
        }
    }

    /// The count of a connection.
    pub(crate) fn executed(&self, link: u64) -> u64
        ensures { result ≡ executed_by self.now link }
    {
        if let Some(current) = self.current
            && current.link == link
        {
            return current.executed;
        }
        match self.counts.get(&link) {
            Some(executed) => *executed,
            None => 0,
        }
    }

    /// Removes the count of a connection that has ended.
    pub(crate) fn remove(&mut self, link: u64)
        ensures { (at : ℕ) → executed_by self.new at ≡ forgotten link (executed_by self.old) at }
    {
        self.counts.remove(&link);
        if let Some(current) = self.current
            && current.link == link
        {
            self.current = None;
        }
    }
}
