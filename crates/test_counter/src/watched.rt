//! A store in lists that reports each of its calls.

use bank_books::{
    AccountRecord, BranchRecord, Entry, EntryRecord, Plan, Release, Slip, TellerRecord,
};
use bank_policy::{CertifiedRow, HeldRow};
use bank_terms::Procedure;
use money::Fault;
use std::alloc::Global;
use std::rc::RcSlice;
use store_rows::{
    BookReads, DrawerRecord, ListStore, PolicyKey, PolicyReads, PolicyRow, ReportReads, SlipReads,
    Store, StoreState, UserRecord,
};

/// Which rows are read.
#[derive(Clone, Copy, Debug, PartialEq, Eq)]
pub enum Read {
    /// The triples of a user for a procedure.
    Triples,
    /// The relations of a procedure.
    Relations,
    /// Any other.
    Other,
}

/// Sees each call of a store before it is carried out, and may have it fail. It represents any World.
pub trait Watch: StoreState {
    ghost use Rattle.std.specs.Prelude.{⊤};
    ghost use Rattle.store_rows.specs.Status.{ReadsRow};

    /// These rows are to be read.
    fn on_read(&mut self, read: Read) -> Result<(), Fault>
        ensures { ReadsRow (Self.status self.old) (Self.status self.new) result (λ _ _. ⊤) };

    /// A plan is to be applied.
    fn on_apply(&mut self) -> Result<(), Fault>
        ensures { ReadsRow (Self.status self.old) (Self.status self.new) result (λ _ _. ⊤) };
}

/// A World in lists, and the watch that sees its calls.
#[derive(Drop)]
pub struct Watched<W> {
    store: ListStore,
    watch: W,
}

impl<W: Watch> Watched<W> {
    /// This store, which was not called yet.
    pub fn new(store: ListStore, watch: W) -> Watched<W> {
        Watched { store, watch }
    }

    /// The watch that saw its calls.
    pub fn watch(&self) -> &W {
        &self.watch
    }

    /// The World in lists.
    pub fn into_below(self) -> ListStore
    where
        W: Drop,
    {
        self.store
    }
}

impl<W: Watch> StoreState for Watched<W> {
    ghost use Rattle.std.specs.Prelude.{◌+◌, min};
    ghost use Rattle.money.specs.Counted.{full_count};
    ghost use Rattle.store_rows.specs.ListStore.{list_status};

    ghost status = { λ s. record (list_status s.store) {
      is_stopped = (W.status s.watch).is_stopped;
      fault_count = min ((W.status s.watch).fault_count + (list_status s.store).fault_count) full_count;
      failure_count = min ((W.status s.watch).failure_count + (list_status s.store).failure_count) full_count;
    } };

    fn faults(&self) -> u64 {
        self.watch.faults().saturating_add(self.store.faults())
    }

    fn is_stopped(&self) -> bool {
        self.watch.is_stopped()
    }
}

impl<W: Watch> PolicyReads for Watched<W> {
    fn user(&mut self, alloc: Global, user: u32) -> Result<Option<UserRecord>, Fault> {
        self.watch.on_read(Read::Other)?;
        self.store.user(alloc, user)
    }

    fn triples_of(
        &mut self,
        alloc: Global,
        user: u32,
        procedure: Procedure,
    ) -> Result<RcSlice<HeldRow>, Fault> {
        self.watch.on_read(Read::Triples)?;
        self.store.triples_of(alloc, user, procedure)
    }

    fn relations_of(
        &mut self,
        alloc: Global,
        procedure: Procedure,
    ) -> Result<RcSlice<CertifiedRow>, Fault> {
        self.watch.on_read(Read::Relations)?;
        self.store.relations_of(alloc, procedure)
    }

    fn triples(&mut self, alloc: Global, user: u32) -> Result<u64, Fault> {
        self.watch.on_read(Read::Other)?;
        self.store.triples(alloc, user)
    }

    fn sets(&mut self, alloc: Global) -> Result<u64, Fault> {
        self.watch.on_read(Read::Other)?;
        self.store.sets(alloc)
    }

    fn set(&mut self, alloc: Global, number: u32) -> Result<bool, Fault> {
        self.watch.on_read(Read::Other)?;
        self.store.set(alloc, number)
    }

    fn certifier(&mut self, alloc: Global, user: u32, procedure: Procedure) -> Result<bool, Fault> {
        self.watch.on_read(Read::Other)?;
        self.store.certifier(alloc, user, procedure)
    }

    fn release(&mut self, alloc: Global, user: u32, number: u32) -> Result<Option<Release>, Fault> {
        self.watch.on_read(Read::Other)?;
        self.store.release(alloc, user, number)
    }

    fn version(&mut self, alloc: Global) -> Result<u64, Fault> {
        self.watch.on_read(Read::Other)?;
        self.store.version(alloc)
    }
}

impl<W: Watch> BookReads for Watched<W> {
    fn account(&mut self, alloc: Global, account: u32) -> Result<Option<AccountRecord>, Fault> {
        self.watch.on_read(Read::Other)?;
        self.store.account(alloc, account)
    }

    fn teller(&mut self, alloc: Global, teller: u32) -> Result<Option<TellerRecord>, Fault> {
        self.watch.on_read(Read::Other)?;
        self.store.teller(alloc, teller)
    }

    fn branch(&mut self, alloc: Global, branch: u32) -> Result<Option<BranchRecord>, Fault> {
        self.watch.on_read(Read::Other)?;
        self.store.branch(alloc, branch)
    }

    fn roster(&mut self, alloc: Global, branch: u32) -> Result<Vec<TellerRecord>, Fault> {
        self.watch.on_read(Read::Other)?;
        self.store.roster(alloc, branch)
    }

    fn entry(&mut self, alloc: Global, branch: u32, number: u32) -> Result<Option<Entry>, Fault> {
        self.watch.on_read(Read::Other)?;
        self.store.entry(alloc, branch, number)
    }

    fn undone(&mut self, alloc: Global, branch: u32, number: u32) -> Result<bool, Fault> {
        self.watch.on_read(Read::Other)?;
        self.store.undone(alloc, branch, number)
    }

    fn drawer(&mut self, alloc: Global, teller: u32) -> Result<Option<DrawerRecord>, Fault> {
        self.watch.on_read(Read::Other)?;
        self.store.drawer(alloc, teller)
    }

    fn vault(&mut self, alloc: Global, branch: u32) -> Result<Option<i128>, Fault> {
        self.watch.on_read(Read::Other)?;
        self.store.vault(alloc, branch)
    }
}

impl<W: Watch> SlipReads for Watched<W> {
    fn slip(&mut self, alloc: Global, user: u32, number: u32) -> Result<Option<Slip>, Fault> {
        self.watch.on_read(Read::Other)?;
        self.store.slip(alloc, user, number)
    }

    fn slips(&mut self, alloc: Global, user: u32) -> Result<u64, Fault> {
        self.watch.on_read(Read::Other)?;
        self.store.slips(alloc, user)
    }
}

impl<W: Watch> ReportReads for Watched<W> {
    fn entries_of(
        &mut self,
        alloc: Global,
        account: u32,
        start: u32,
        count: u32,
    ) -> Result<Vec<EntryRecord>, Fault> {
        self.watch.on_read(Read::Other)?;
        self.store.entries_of(alloc, account, start, count)
    }

    fn entry_at(
        &mut self,
        alloc: Global,
        account: u32,
        turn: u32,
    ) -> Result<Option<EntryRecord>, Fault> {
        self.watch.on_read(Read::Other)?;
        self.store.entry_at(alloc, account, turn)
    }

    fn shown(
        &mut self,
        alloc: Global,
        user: u32,
        after: u32,
        count: u32,
        moment: u64,
    ) -> Result<Vec<AccountRecord>, Fault> {
        self.watch.on_read(Read::Other)?;
        self.store.shown(alloc, user, after, count, moment)
    }

    fn next_shown(
        &mut self,
        alloc: Global,
        user: u32,
        after: u32,
        moment: u64,
    ) -> Result<Option<AccountRecord>, Fault> {
        self.watch.on_read(Read::Other)?;
        self.store.next_shown(alloc, user, after, moment)
    }

    fn next_teller(
        &mut self,
        alloc: Global,
        branch: u32,
        after: u32,
    ) -> Result<Option<TellerRecord>, Fault> {
        self.watch.on_read(Read::Other)?;
        self.store.next_teller(alloc, branch, after)
    }

    fn policy_rows(&mut self, alloc: Global) -> Result<Vec<PolicyRow>, Fault> {
        self.watch.on_read(Read::Other)?;
        self.store.policy_rows(alloc)
    }

    fn next_policy(
        &mut self,
        alloc: Global,
        after: Option<PolicyKey>,
    ) -> Result<Option<PolicyRow>, Fault> {
        self.watch.on_read(Read::Other)?;
        self.store.next_policy(alloc, after)
    }
}

impl<W: Watch> Store for Watched<W> {
    fn apply(&mut self, alloc: Global, plan: Plan) -> Result<(), Fault> {
        self.watch.on_apply()?;
        self.store.apply(alloc, plan)
    }
}
