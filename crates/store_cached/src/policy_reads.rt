//! The reads of the policy: triples, relations and the version by what is kept, all others from the store below.

ghost use Rattle.std.specs.Prelude.{◌≡◌, ◌<◌, OnErr, OnOk};
ghost use Rattle.std.specs.Rc.{rc_slice_items};
ghost use Rattle.bank_policy.specs.HeldRows.{relations_of, triples_of};
ghost use Rattle.store_rows.specs.Status.{ReadsRow, Tells};
ghost use Rattle.store_cached.specs.Standing.{IsKept, cached_status, remembered, unkept_count};

use crate::cached::Cached;
use crate::entry::{Key, Rows};
use bank_books::Release;
use bank_policy::{CertifiedRow, HeldRow};
use bank_terms::Procedure;
use money::Fault;
use std::alloc::Global;
use std::rc::RcSlice;
use store_rows::{PolicyReads, Store, UserRecord};

impl<S: Store> PolicyReads for Cached<S> {
    /// What the row of a user says, from what is kept if the store below is not stopped, and otherwise from that store.
    fn user(&mut self, alloc: Global, user: u32) -> Result<Option<UserRecord>, Fault> {
        if let Some(row) = self.kept_user(user) {
            return Ok(row);
        }
        let row = self.store.user(alloc, user)?;
        self.keep_user(user, row);
        Ok(row)
    }

    /// The triples of a user for a procedure, from what is kept where that is of the present version, and
    /// otherwise from the store below. An entry of theirs is then kept as the last used, or memory for it
    /// was refused, which is counted. No user has the number 0: such triples are read of the store below,
    /// and never kept.
    fn triples_of(
        &mut self,
        alloc: Global,
        user: u32,
        procedure: Procedure,
    ) -> Result<RcSlice<HeldRow>, Fault>
        ensures reads { ReadsRow (cached_status S.status self.old) (cached_status S.status self.new) result (λ w rows. rc_slice_items rows ≡ triples_of w.policy user procedure) }
        ensures kept { Tells (cached_status S.status self.old) (cached_status S.status self.new) (λ w. OnOk result (0 < user → IsKept (record { user = user; procedure = procedure }) w.version self.old self.new)) }
        ensures nobody { user ≡ 0 → (remembered self.new ≡ remembered self.old) × (unkept_count self.new ≡ unkept_count self.old) }
        ensures err { OnErr result (unkept_count self.new ≡ unkept_count self.old) }
    {
        if user == 0 {
            return self.store.triples_of(alloc, user, procedure);
        }
        let version = self.present_version(alloc)?;
        let key = Key { user, procedure };
        if let Some(Rows::Triples(rows)) = self.cache.recall(key, version) {
            return Ok(rows);
        }
        let rows = self.store.triples_of(alloc, user, procedure)?;
        let kept = self.cache.remember_triples(key, version, &rows);
        if kept.is_err() {
            self.unkept = self.unkept.saturating_add(1);
        }
        Ok(rows)
    }

    /// The relations of a procedure, from what is kept where that is of the present version, and
    /// otherwise from the store below. An entry of theirs is then kept as the last used, or memory for it
    /// was refused, which is counted.
    fn relations_of(
        &mut self,
        alloc: Global,
        procedure: Procedure,
    ) -> Result<RcSlice<CertifiedRow>, Fault>
        ensures reads { ReadsRow (cached_status S.status self.old) (cached_status S.status self.new) result (λ w rows. rc_slice_items rows ≡ relations_of w.policy procedure) }
        ensures kept { Tells (cached_status S.status self.old) (cached_status S.status self.new) (λ w. OnOk result (IsKept (record { user = 0; procedure = procedure }) w.version self.old self.new)) }
        ensures err { OnErr result (unkept_count self.new ≡ unkept_count self.old) }
    {
        let version = self.present_version(alloc)?;
        let key = Key { user: 0, procedure };
        if let Some(Rows::Relations(rows)) = self.cache.recall(key, version) {
            return Ok(rows);
        }
        let rows = self.store.relations_of(alloc, procedure)?;
        let kept = self.cache.remember_relations(key, version, &rows);
        if kept.is_err() {
            self.unkept = self.unkept.saturating_add(1);
        }
        Ok(rows)
    }

    fn triples(&mut self, alloc: Global, user: u32) -> Result<u64, Fault> {
        self.store.triples(alloc, user)
    }

    fn sets(&mut self, alloc: Global) -> Result<u64, Fault> {
        self.store.sets(alloc)
    }

    fn set(&mut self, alloc: Global, number: u32) -> Result<bool, Fault> {
        self.store.set(alloc, number)
    }

    fn certifier(&mut self, alloc: Global, user: u32, procedure: Procedure) -> Result<bool, Fault> {
        self.store.certifier(alloc, user, procedure)
    }

    fn release(&mut self, alloc: Global, user: u32, number: u32) -> Result<Option<Release>, Fault> {
        self.store.release(alloc, user, number)
    }

    fn version(&mut self, alloc: Global) -> Result<u64, Fault> {
        self.present_version(alloc)
    }
}
