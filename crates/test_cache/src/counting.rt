//! Counts how often a store is asked for rows.

use money::Fault;
use store_rows::StoreState;
use test_counter::{Read, Watch};

/// How often a store was asked for the triples of a user, for the relations of a procedure, and for any rows.
#[derive(Clone, Copy, Debug, PartialEq, Eq)]
pub(crate) struct Counting {
    triples: u64,
    relations: u64,
    all: u64,
}

impl Counting {
    /// Of a store that wasn't asked yet.
    pub(crate) const NEW: Counting = Counting {
        triples: 0,
        relations: 0,
        all: 0,
    };

    /// How often it was asked for triples, and for relations.
    pub(crate) fn reads(&self) -> (u64, u64) {
        (self.triples, self.relations)
    }

    /// How often it was asked for rows.
    pub(crate) fn all(&self) -> u64 {
        self.all
    }
}

impl StoreState for Counting {
    ghost use Rattle.std.specs.Prelude.{⊤, false};

    ghost status = { λ _. record {
      holds = λ _. ⊤;
      is_honest = ⊤;
      is_stopped = false;
      fault_count = 0;
      failure_count = 0;
      may_leave = λ _. ⊤;
      leaves_a_world = ⊤;
    } };

    fn faults(&self) -> u64 {
        0
    }

    fn is_stopped(&self) -> bool {
        false
    }
}

impl Watch for Counting {
    fn on_read(&mut self, read: Read) -> Result<(), Fault> {
        self.all = self.all.saturating_add(1);
        match read {
            Read::Triples => self.triples = self.triples.saturating_add(1),
            Read::Relations => self.relations = self.relations.saturating_add(1),
            Read::Other => {}
        }
        Ok(())
    }

    fn on_apply(&mut self) -> Result<(), Fault> {
        Ok(())
    }
}
