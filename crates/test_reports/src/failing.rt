//! A store that fails at one of its reads.

use money::Fault;
use store_rows::{ListStore, StoreState};
use test_counter::{Read, Watch, Watched};

/// Why a read fails.
#[derive(Clone, Copy, Debug, PartialEq, Eq)]
pub enum Cause {
    /// Memory is refused. Each later read is answered.
    Memory,
    /// The disk fails, and that stops the store.
    Disk,
}

impl Cause {
    /// The fault that the read answers.
    pub fn fault(self) -> Fault {
        match self {
            Cause::Memory => Fault::Memory,
            Cause::Disk => Fault::Disk,
        }
    }
}

/// Has one read of a store fail.
#[derive(Clone, Copy, Debug, PartialEq, Eq)]
pub struct Failing {
    reads: u64,
    fails_at: u64,
    cause: Cause,
    stopped: bool,
    /// How many calls it had fail.
    faults: u64,
    /// How many of them for the disk.
    failures: u64,
}

impl Failing {
    /// The store whose read of this number fails for this cause. The first one has the number 1.
    pub fn over(store: ListStore, fails_at: u64, cause: Cause) -> Watched<Failing> {
        let watch = Failing {
            reads: 0,
            fails_at,
            cause,
            stopped: false,
            faults: 0,
            failures: 0,
        };
        Watched::new(store, watch)
    }

    /// The store of which no read fails.
    pub fn calm(store: ListStore) -> Watched<Failing> {
        Failing::over(store, 0, Cause::Memory)
    }

    /// How often the store was read.
    pub fn reads(&self) -> u64 {
        self.reads
    }
}

impl StoreState for Failing {
    ghost use Rattle.std.specs.Prelude.{⊤};

    ghost status = { λ f. record {
      holds = λ _. ⊤;
      is_honest = ⊤;
      is_stopped = f.stopped;
      fault_count = f.faults;
      failure_count = f.failures;
      may_leave = λ _. ⊤;
      leaves_a_world = ⊤;
    } };

    fn faults(&self) -> u64 {
        self.faults
    }

    fn is_stopped(&self) -> bool {
        self.stopped
    }
}

impl Watch for Failing {
    fn on_read(&mut self, _read: Read) -> Result<(), Fault> {
        self.reads = self.reads.saturating_add(1);
        self.on_apply()?;
        if self.reads != self.fails_at {
            return Ok(());
        }
        self.faults = self.faults.saturating_add(1);
        match self.cause {
            Cause::Memory => Err(Fault::Memory),
            Cause::Disk => {
                self.failures = self.failures.saturating_add(1);
                self.stopped = true;
                Err(Fault::Disk)
            }
        }
    }

    /// Where the disk has failed, each call is refused.
    fn on_apply(&mut self) -> Result<(), Fault> {
        if !self.stopped {
            return Ok(());
        }
        self.faults = self.faults.saturating_add(1);
        self.failures = self.failures.saturating_add(1);
        Err(Fault::Stopped)
    }
}
