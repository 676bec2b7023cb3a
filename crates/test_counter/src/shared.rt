//! A store that a counter works on and another owns.

use bank_books::{
    AccountRecord, BranchRecord, Entry, EntryRecord, Plan, Release, Slip, TellerRecord,
};
use bank_policy::{CertifiedRow, HeldRow};
use bank_terms::Procedure;
use money::Fault;
use std::alloc::Global;
use std::rc::RcSlice;
use store_rows::{
    BookReads, DrawerRecord, PolicyKey, PolicyReads, PolicyRow, ReportReads, SlipReads, Store,
    StoreState, UserRecord,
};

/// Another owner's store, to which each call is passed on.
#[derive(Drop)]
pub struct Shared<'a, S> {
    /// The store.
    pub store: &'a mut S,
}

impl<S: Store> StoreState for Shared<'_, S> {
    ghost status = { λ s. S.status s.store.now };

    fn faults(&self) -> u64 {
        self.store.faults()
    }

    fn is_stopped(&self) -> bool {
        self.store.is_stopped()
    }
}

impl<S: Store> PolicyReads for Shared<'_, S> {
    fn user(&mut self, alloc: Global, user: u32) -> Result<Option<UserRecord>, Fault> {
        self.store.user(alloc, user)
    }

    fn triples_of(
        &mut self,
        alloc: Global,
        user: u32,
        procedure: Procedure,
    ) -> Result<RcSlice<HeldRow>, Fault> {
        self.store.triples_of(alloc, user, procedure)
    }

    fn relations_of(
        &mut self,
        alloc: Global,
        procedure: Procedure,
    ) -> Result<RcSlice<CertifiedRow>, Fault> {
        self.store.relations_of(alloc, procedure)
    }

    fn triples(&mut self, alloc: Global, user: u32) -> Result<u64, Fault> {
        self.store.triples(alloc, user)
    }

    fn sets(&mut self, alloc: Global) -> Result<u64, Fault> {
        self.store.sets(alloc)
    }

    fn set(&mut self, alloc: Global, number: u32) -> Result<bool, Fault> {
        self.store.set(alloc, number)
    }

    fn certifier(&mut self, alloc: Global, user: u32, procedure: Procedure) -> Result<bool, Fault> {
        self.store.certifier(alloc, user, procedure)
    }

    fn release(&mut self, alloc: Global, user: u32, number: u32) -> Result<Option<Release>, Fault> {
        self.store.release(alloc, user, number)
    }

    fn version(&mut self, alloc: Global) -> Result<u64, Fault> {
        self.store.version(alloc)
    }
}

impl<S: Store> BookReads for Shared<'_, S> {
    fn account(&mut self, alloc: Global, account: u32) -> Result<Option<AccountRecord>, Fault> {
        self.store.account(alloc, account)
    }

    fn teller(&mut self, alloc: Global, teller: u32) -> Result<Option<TellerRecord>, Fault> {
        self.store.teller(alloc, teller)
    }

    fn branch(&mut self, alloc: Global, branch: u32) -> Result<Option<BranchRecord>, Fault> {
        self.store.branch(alloc, branch)
    }

    fn roster(&mut self, alloc: Global, branch: u32) -> Result<Vec<TellerRecord>, Fault> {
        self.store.roster(alloc, branch)
    }

    fn entry(&mut self, alloc: Global, branch: u32, number: u32) -> Result<Option<Entry>, Fault> {
        self.store.entry(alloc, branch, number)
    }

    fn undone(&mut self, alloc: Global, branch: u32, number: u32) -> Result<bool, Fault> {
        self.store.undone(alloc, branch, number)
    }

    fn drawer(&mut self, alloc: Global, teller: u32) -> Result<Option<DrawerRecord>, Fault> {
        self.store.drawer(alloc, teller)
    }

    fn vault(&mut self, alloc: Global, branch: u32) -> Result<Option<i128>, Fault> {
        self.store.vault(alloc, branch)
    }
}

impl<S: Store> SlipReads for Shared<'_, S> {
    fn slip(&mut self, alloc: Global, user: u32, number: u32) -> Result<Option<Slip>, Fault> {
        self.store.slip(alloc, user, number)
    }

    fn slips(&mut self, alloc: Global, user: u32) -> Result<u64, Fault> {
        self.store.slips(alloc, user)
    }
}

impl<S: Store> ReportReads for Shared<'_, S> {
    fn entries_of(
        &mut self,
        alloc: Global,
        account: u32,
        start: u32,
        count: u32,
    ) -> Result<Vec<EntryRecord>, Fault> {
        self.store.entries_of(alloc, account, start, count)
    }

    fn entry_at(
        &mut self,
        alloc: Global,
        account: u32,
        turn: u32,
    ) -> Result<Option<EntryRecord>, Fault> {
        self.store.entry_at(alloc, account, turn)
    }

    fn shown(
        &mut self,
        alloc: Global,
        user: u32,
        after: u32,
        count: u32,
        moment: u64,
    ) -> Result<Vec<AccountRecord>, Fault> {
        self.store.shown(alloc, user, after, count, moment)
    }

    fn next_shown(
        &mut self,
        alloc: Global,
        user: u32,
        after: u32,
        moment: u64,
    ) -> Result<Option<AccountRecord>, Fault> {
        self.store.next_shown(alloc, user, after, moment)
    }

    fn next_teller(
        &mut self,
        alloc: Global,
        branch: u32,
        after: u32,
    ) -> Result<Option<TellerRecord>, Fault> {
        self.store.next_teller(alloc, branch, after)
    }

    fn policy_rows(&mut self, alloc: Global) -> Result<Vec<PolicyRow>, Fault> {
        self.store.policy_rows(alloc)
    }

    fn next_policy(
        &mut self,
        alloc: Global,
        after: Option<PolicyKey>,
    ) -> Result<Option<PolicyRow>, Fault> {
        self.store.next_policy(alloc, after)
    }
}

impl<S: Store> Store for Shared<'_, S> {
    fn apply(&mut self, alloc: Global, plan: Plan) -> Result<(), Fault> {
        self.store.apply(alloc, plan)
    }
}
