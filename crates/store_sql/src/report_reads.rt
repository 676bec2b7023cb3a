//! Reads for reports, of many rows at once or one after another: each asks its question of the tables.

use crate::report_questions::{EntriesOf, EntryAt, NextShown, NextTeller, Shown};
use crate::sql_store::SqlStore;
use bank_books::{AccountRecord, EntryRecord, TellerRecord};
use money::Fault;
use sql_listing::{NextPolicy, PolicyRows};
use sqlite::Alter;
use std::alloc::Global;
use store_rows::ReportReads;
use world_reads::{PolicyKey, PolicyRow};

impl<S: Alter> ReportReads for SqlStore<S> {
    fn entries_of(
        &mut self,
        alloc: Global,
        account: u32,
        start: u32,
        count: u32,
    ) -> Result<Vec<EntryRecord>, Fault> {
        self.ask(
            alloc,
            &EntriesOf {
                account,
                start,
                count,
            },
        )
    }

    fn entry_at(
        &mut self,
        alloc: Global,
        account: u32,
        turn: u32,
    ) -> Result<Option<EntryRecord>, Fault> {
        self.ask(alloc, &EntryAt { account, turn })
    }

    fn shown(
        &mut self,
        alloc: Global,
        user: u32,
        after: u32,
        count: u32,
        moment: u64,
    ) -> Result<Vec<AccountRecord>, Fault> {
        self.ask(
            alloc,
            &Shown {
                user,
                after,
                count,
                moment,
            },
        )
    }

    fn next_shown(
        &mut self,
        alloc: Global,
        user: u32,
        after: u32,
        moment: u64,
    ) -> Result<Option<AccountRecord>, Fault> {
        self.ask(
            alloc,
            &NextShown {
                user,
                after,
                moment,
            },
        )
    }

    fn next_teller(
        &mut self,
        alloc: Global,
        branch: u32,
        after: u32,
    ) -> Result<Option<TellerRecord>, Fault> {
        self.ask(alloc, &NextTeller { branch, after })
    }

    fn policy_rows(&mut self, alloc: Global) -> Result<Vec<PolicyRow>, Fault> {
        self.ask(alloc, &PolicyRows)
    }

    fn next_policy(
        &mut self,
        alloc: Global,
        after: Option<PolicyKey>,
    ) -> Result<Option<PolicyRow>, Fault> {
        self.ask(alloc, &NextPolicy { after })
    }
}
