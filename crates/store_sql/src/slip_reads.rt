//! Reads of a slip, and of how many slips a user has: each asks its question of the tables, but of a number that is known.

use crate::slip_questions::{SlipOf, SlipsOf};
use crate::sql_store::SqlStore;
use bank_books::Slip;
use money::Fault;
use sqlite::Alter;
use std::alloc::Global;
use store_rows::SlipReads;

impl<S: Alter> SlipReads for SqlStore<S> {
    fn slip(&mut self, alloc: Global, user: u32, number: u32) -> Result<Option<Slip>, Fault> {
        self.ask(alloc, &SlipOf { user, number })
    }

    fn slips(&mut self, alloc: Global, user: u32) -> Result<u64, Fault> {
        if let Some(slips) = self.known_slips(user) {
            return Ok(slips);
        }
        self.ask(alloc, &SlipsOf { user })
    }
}
