//! The reads for reports, which all go to the store below.

use crate::cached::Cached;
use bank_books::{AccountRecord, EntryRecord, TellerRecord};
use money::Fault;
use std::alloc::Global;
use store_rows::{PolicyKey, PolicyRow, ReportReads, Store};

impl<S: Store> ReportReads for Cached<S> {
    fn entries_of(
        &mut self,
        alloc: Global,
        account: u32,
        start: u32,
        count: u32,
    ) -> Result<Vec<EntryRecord>, Fault> {
        self.store.entries_of(alloc, account, start, count)
    }

    fn entry_at(
        &mut self,
        alloc: Global,
        account: u32,
        turn: u32,
    ) -> Result<Option<EntryRecord>, Fault> {
        self.store.entry_at(alloc, account, turn)
    }

    fn shown(
        &mut self,
        alloc: Global,
        user: u32,
        after: u32,
        count: u32,
        moment: u64,
    ) -> Result<Vec<AccountRecord>, Fault> {
        self.store.shown(alloc, user, after, count, moment)
    }

    fn next_shown(
        &mut self,
        alloc: Global,
        user: u32,
        after: u32,
        moment: u64,
    ) -> Result<Option<AccountRecord>, Fault> {
        self.store.next_shown(alloc, user, after, moment)
    }

    fn next_teller(
        &mut self,
        alloc: Global,
        branch: u32,
        after: u32,
    ) -> Result<Option<TellerRecord>, Fault> {
        self.store.next_teller(alloc, branch, after)
    }

    fn policy_rows(&mut self, alloc: Global) -> Result<Vec<PolicyRow>, Fault> {
        self.store.policy_rows(alloc)
    }

    fn next_policy(
        &mut self,
        alloc: Global,
        after: Option<PolicyKey>,
    ) -> Result<Option<PolicyRow>, Fault> {
        self.store.next_policy(alloc, after)
    }
}
