//! The reads of the books and of slips, which all go to the store below.

use crate::cached::Cached;
use bank_books::{AccountRecord, BranchRecord, Entry, Slip, TellerRecord};
use money::Fault;
use std::alloc::Global;
use store_rows::{BookReads, DrawerRecord, SlipReads, Store};

impl<S: Store> BookReads for Cached<S> {
    fn account(&mut self, alloc: Global, account: u32) -> Result<Option<AccountRecord>, Fault> {
        self.store.account(alloc, account)
    }

    fn teller(&mut self, alloc: Global, teller: u32) -> Result<Option<TellerRecord>, Fault> {
        self.store.teller(alloc, teller)
    }

    fn branch(&mut self, alloc: Global, branch: u32) -> Result<Option<BranchRecord>, Fault> {
        self.store.branch(alloc, branch)
    }

    fn roster(&mut self, alloc: Global, branch: u32) -> Result<Vec<TellerRecord>, Fault> {
        self.store.roster(alloc, branch)
    }

    fn entry(&mut self, alloc: Global, branch: u32, number: u32) -> Result<Option<Entry>, Fault> {
        self.store.entry(alloc, branch, number)
    }

    fn undone(&mut self, alloc: Global, branch: u32, number: u32) -> Result<bool, Fault> {
        self.store.undone(alloc, branch, number)
    }

    fn drawer(&mut self, alloc: Global, teller: u32) -> Result<Option<DrawerRecord>, Fault> {
        self.store.drawer(alloc, teller)
    }

    fn vault(&mut self, alloc: Global, branch: u32) -> Result<Option<i128>, Fault> {
        self.store.vault(alloc, branch)
    }
}

impl<S: Store> SlipReads for Cached<S> {
    fn slip(&mut self, alloc: Global, user: u32, number: u32) -> Result<Option<Slip>, Fault> {
        self.store.slip(alloc, user, number)
    }

    fn slips(&mut self, alloc: Global, user: u32) -> Result<u64, Fault> {
        self.store.slips(alloc, user)
    }
}
