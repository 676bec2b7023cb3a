//! Questions about the policy.

ghost use Rattle.std.specs.Prelude.{◌≡◌, option_map};
ghost use Rattle.std.specs.Rc.{rc_slice_items};
ghost use Rattle.bank_policy.specs.HeldRows.{relations_of, triples_of};
ghost use Rattle.world_reads.specs.BookReads.{release};
ghost use Rattle.world_reads.specs.PolicyReads.{is_certifier, is_set, set_count, triple_count, user_record};
ghost use Rattle.store_sql.specs.Shown.{user_read};

use bank_books::Release;
use bank_policy::{CertifiedRow, HeldRow, Standing};
use bank_terms::Procedure;
use book_kept::KeptUser;
use money::Fault;
use sql_schema::Question;
use sqlite::{Alter, Transaction};
use std::alloc::Global;
use std::rc::RcSlice;
use world_reads::UserRecord;

/// What a store answers of a user, by the row that is kept of them.
fn record_of(found: Option<KeptUser>) -> Option<UserRecord>
    ensures { result ≡ option_map user_read found }
{
    match found {
        Some(kept) => Some(UserRecord {
            standing: Standing {
                officer: kept.row.officer,
                suspended: kept.row.suspended,
                session: kept.row.session,
                on: kept.row.on,
            },
            releases: kept.releases,
        }),
        None => None,
    }
}

/// The user of this number and how many releases they were given, or none where there is no such user.
#[derive(Clone, Copy)]
pub struct UserRow {
    /// The number.
    pub user: u32,
}

impl Question for UserRow {
    type Answer = Option<UserRecord>;

    ghost says = { λ asked w row. row ≡ user_record w asked.user };

    fn ask<S: Alter>(
        &self,
        _alloc: Global,
        tx: &mut Transaction<'_, S>,
    ) -> Result<Option<UserRecord>, Fault> {
        Ok(record_of(sql_policy::user_of(tx, self.user)?))
    }
}

/// The triples of this user for this procedure, each with the members of its set.
#[derive(Clone, Copy)]
pub struct TriplesFor {
    /// The user.
    pub user: u32,
    /// The procedure.
    pub procedure: Procedure,
}

impl Question for TriplesFor {
    type Answer = RcSlice<HeldRow>;

    ghost says = { λ asked w rows. rc_slice_items rows ≡ triples_of w.policy asked.user asked.procedure };

    fn ask<S: Alter>(
        &self,
        alloc: Global,
        tx: &mut Transaction<'_, S>,
    ) -> Result<RcSlice<HeldRow>, Fault> {
        let rows = sql_policy::triples_of(alloc, tx, self.user, self.procedure)?;
        Ok(RcSlice::from_vec(rows)?)
    }
}

/// The relations of this procedure, each with the members of its set.
#[derive(Clone, Copy)]
pub struct RelationsOf {
    /// The procedure.
    pub procedure: Procedure,
}

impl Question for RelationsOf {
    type Answer = RcSlice<CertifiedRow>;

    ghost says = { λ asked w rows. rc_slice_items rows ≡ relations_of w.policy asked.procedure };

    fn ask<S: Alter>(
        &self,
        alloc: Global,
        tx: &mut Transaction<'_, S>,
    ) -> Result<RcSlice<CertifiedRow>, Fault> {
        let rows = sql_policy::relations_of(alloc, tx, self.procedure)?;
        Ok(RcSlice::from_vec(rows)?)
    }
}

/// How many triples a user has.
#[derive(Clone, Copy)]
pub struct TripleCount {
    /// The user.
    pub user: u32,
}

impl Question for TripleCount {
    type Answer = u64;

    ghost says = { λ asked w n. n ≡ triple_count w asked.user };

    fn ask<S: Alter>(&self, alloc: Global, tx: &mut Transaction<'_, S>) -> Result<u64, Fault> {
        sql_policy::triple_count(tx, self.user)
    }
}

/// How many sets there are.
#[derive(Clone, Copy)]
pub struct SetCount;

impl Question for SetCount {
    type Answer = u64;

    ghost says = { λ asked w n. n ≡ set_count w };

    fn ask<S: Alter>(&self, alloc: Global, tx: &mut Transaction<'_, S>) -> Result<u64, Fault> {
        sql_policy::set_count(tx)
    }
}

/// Whether there is a set of this number.
#[derive(Clone, Copy)]
pub struct HasSet {
    /// The number.
    pub number: u32,
}

impl Question for HasSet {
    type Answer = bool;

    ghost says = { λ asked w there. there ≡ is_set w asked.number };

    fn ask<S: Alter>(&self, alloc: Global, tx: &mut Transaction<'_, S>) -> Result<bool, Fault> {
        sql_policy::is_set(tx, self.number)
    }
}

/// Whether this user may certify this procedure.
#[derive(Clone, Copy)]
pub struct IsCertifier {
    /// The user.
    pub user: u32,
    /// The procedure.
    pub procedure: Procedure,
}

impl Question for IsCertifier {
    type Answer = bool;

    ghost says = { λ asked w there. there ≡ is_certifier w asked.user asked.procedure };

    fn ask<S: Alter>(&self, alloc: Global, tx: &mut Transaction<'_, S>) -> Result<bool, Fault> {
        sql_policy::is_certifier(tx, self.user, self.procedure)
    }
}

/// The release of this number of a user, or none where it isn't there.
#[derive(Clone, Copy)]
pub struct ReleaseRow {
    /// The user.
    pub user: u32,
    /// The number.
    pub number: u32,
}

impl Question for ReleaseRow {
    type Answer = Option<Release>;

    ghost says = { λ asked w row. row ≡ release w asked.user asked.number };

    fn ask<S: Alter>(
        &self,
        alloc: Global,
        tx: &mut Transaction<'_, S>,
    ) -> Result<Option<Release>, Fault> {
        let number = self.number;
        sql_releases::release_of(tx, self.user, number)
    }
}

/// The version of the policy: how many plans have changed it.
#[derive(Clone, Copy)]
pub struct PolicyVersion;

impl Question for PolicyVersion {
    type Answer = u64;

    ghost says = { λ asked w n. n ≡ w.version };

    fn ask<S: Alter>(&self, alloc: Global, tx: &mut Transaction<'_, S>) -> Result<u64, Fault> {
        sql_books::version_of(tx)
    }
}
