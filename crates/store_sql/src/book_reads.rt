//! Reads of accounts, tellers, branches, entries and cash: each asks its question of the tables, but of a row that is known.

use crate::book_questions::{
    AccountRow, BranchRow, DrawerRow, EntryRow, IsUndone, Roster, TellerRow, VaultCash,
};
use crate::sql_store::SqlStore;
use bank_books::{AccountRecord, BranchRecord, Entry, TellerRecord};
use money::Fault;
use sqlite::Alter;
use std::alloc::Global;
use store_rows::BookReads;
use world_reads::DrawerRecord;

impl<S: Alter> BookReads for SqlStore<S> {
    fn account(&mut self, alloc: Global, account: u32) -> Result<Option<AccountRecord>, Fault> {
        if let Some(row) = self.known_account(account) {
            return Ok(Some(row));
        }
        let row = self.ask(alloc, &AccountRow { account })?;
        self.keep_account(account, &row);
        Ok(row)
    }

    fn teller(&mut self, alloc: Global, teller: u32) -> Result<Option<TellerRecord>, Fault> {
        if let Some(row) = self.known_teller(teller) {
            return Ok(Some(row));
        }
        let row = self.ask(alloc, &TellerRow { teller })?;
        self.keep_teller(teller, &row);
        Ok(row)
    }

    fn branch(&mut self, alloc: Global, branch: u32) -> Result<Option<BranchRecord>, Fault> {
        if let Some(row) = self.known_branch(branch) {
            return Ok(Some(row));
        }
        let row = self.ask(alloc, &BranchRow { branch })?;
        self.keep_branch(branch, &row);
        Ok(row)
    }

    fn roster(&mut self, alloc: Global, branch: u32) -> Result<Vec<TellerRecord>, Fault> {
        self.ask(alloc, &Roster { branch })
    }

    fn entry(&mut self, alloc: Global, branch: u32, number: u32) -> Result<Option<Entry>, Fault> {
        self.ask(alloc, &EntryRow { branch, number })
    }

    fn undone(&mut self, alloc: Global, branch: u32, number: u32) -> Result<bool, Fault> {
        self.ask(alloc, &IsUndone { branch, number })
    }

    fn drawer(&mut self, alloc: Global, teller: u32) -> Result<Option<DrawerRecord>, Fault> {
        self.ask(alloc, &DrawerRow { teller })
    }

    fn vault(&mut self, alloc: Global, branch: u32) -> Result<Option<i128>, Fault> {
        self.ask(alloc, &VaultCash { branch })
    }
}
