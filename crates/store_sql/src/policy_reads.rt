//! Reads of users, sets, relations, triples, certifiers and releases: each asks its question of the tables.

use crate::policy_questions::{
    HasSet, IsCertifier, PolicyVersion, RelationsOf, ReleaseRow, SetCount, TripleCount, TriplesFor,
    UserRow,
};
use crate::sql_store::SqlStore;
use bank_books::Release;
use bank_policy::{CertifiedRow, HeldRow};
use bank_terms::Procedure;
use money::Fault;
use sqlite::Alter;
use std::alloc::Global;
use std::rc::RcSlice;
use store_rows::PolicyReads;
use world_reads::UserRecord;

impl<S: Alter> PolicyReads for SqlStore<S> {
    fn user(&mut self, alloc: Global, user: u32) -> Result<Option<UserRecord>, Fault> {
        self.ask(alloc, &UserRow { user })
    }

    fn triples_of(
        &mut self,
        alloc: Global,
        user: u32,
        procedure: Procedure,
    ) -> Result<RcSlice<HeldRow>, Fault> {
        self.ask(alloc, &TriplesFor { user, procedure })
    }

    fn relations_of(
        &mut self,
        alloc: Global,
        procedure: Procedure,
    ) -> Result<RcSlice<CertifiedRow>, Fault> {
        self.ask(alloc, &RelationsOf { procedure })
    }

    fn triples(&mut self, alloc: Global, user: u32) -> Result<u64, Fault> {
        self.ask(alloc, &TripleCount { user })
    }

    fn sets(&mut self, alloc: Global) -> Result<u64, Fault> {
        self.ask(alloc, &SetCount)
    }

    fn set(&mut self, alloc: Global, number: u32) -> Result<bool, Fault> {
        self.ask(alloc, &HasSet { number })
    }

    fn certifier(&mut self, alloc: Global, user: u32, procedure: Procedure) -> Result<bool, Fault> {
        self.ask(alloc, &IsCertifier { user, procedure })
    }

    fn release(&mut self, alloc: Global, user: u32, number: u32) -> Result<Option<Release>, Fault> {
        self.ask(alloc, &ReleaseRow { user, number })
    }

    fn version(&mut self, alloc: Global) -> Result<u64, Fault> {
        self.ask(alloc, &PolicyVersion)
    }
}
