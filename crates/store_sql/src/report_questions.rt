//! Questions that reports ask: many rows at once, or one after another.

ghost use Rattle.std.specs.Prelude.{◌≡◌};
ghost use Rattle.world_reads.specs.BookReads.{entries_of, entry_at, next_shown, next_teller, shown};

use crate::least_reads::least_of;
use crate::shown_reads::{accounts_triples, held_above};
use crate::teller_rows::record_of;
use bank_books::{AccountRecord, EntryRecord, TellerRecord};
use money::Fault;
use sql_schema::Question;
use sqlite::{Alter, Transaction};
use std::alloc::Global;

/// The entry of an account that is its turn of this number, or none where it isn't there.
#[derive(Clone, Copy)]
pub struct EntryAt {
    /// The account.
    pub account: u32,
    /// The turn.
    pub turn: u32,
}

impl Question for EntryAt {
    type Answer = Option<EntryRecord>;

    ghost says = { λ asked w row. row ≡ entry_at w asked.account asked.turn };

    fn ask<S: Alter>(
        &self,
        alloc: Global,
        tx: &mut Transaction<'_, S>,
    ) -> Result<Option<EntryRecord>, Fault> {
        sql_books::entry_at(tx, self.account, self.turn)
    }
}

/// The next teller of a branch above a number, or none where there is no other.
#[derive(Clone, Copy)]
pub struct NextTeller {
    /// The branch.
    pub branch: u32,
    /// The number that the teller's is above.
    pub after: u32,
}

impl Question for NextTeller {
    type Answer = Option<TellerRecord>;

    ghost says = { λ asked w row. row ≡ next_teller w asked.branch asked.after };

    fn ask<S: Alter>(
        &self,
        alloc: Global,
        tx: &mut Transaction<'_, S>,
    ) -> Result<Option<TellerRecord>, Fault> {
        let found = sql_books::next_teller(tx, self.branch, self.after)?;
        Ok(record_of(found))
    }
}

/// The entries of an account that are its turns from a first one on, as long as they are there, at
/// most `count`, each with the balance after it.
#[derive(Clone, Copy)]
pub struct EntriesOf {
    /// The account.
    pub account: u32,
    /// The first turn.
    pub start: u32,
    /// The most of them.
    pub count: u32,
}

impl Question for EntriesOf {
    type Answer = Vec<EntryRecord>;

    ghost says = { λ asked w rows. rows.items ≡ entries_of w asked.account asked.start asked.count };

    fn ask<S: Alter>(
        &self,
        alloc: Global,
        tx: &mut Transaction<'_, S>,
    ) -> Result<Vec<EntryRecord>, Fault> {
        sql_books::version_of(tx)?;
        sql_books::entries_from(alloc, tx, self.account, self.start, self.count)
    }
}

/// The next account above a number that a user is shown, or none where there is no other.
#[derive(Clone, Copy)]
pub struct NextShown {
    /// The user.
    pub user: u32,
    /// The number that the account's is above.
    pub after: u32,
    /// The moment of the question.
    pub moment: u64,
}

impl Question for NextShown {
    type Answer = Option<AccountRecord>;

    ghost says = { λ asked w row. row ≡ next_shown w asked.user asked.after asked.moment };

    fn ask<S: Alter>(
        &self,
        alloc: Global,
        tx: &mut Transaction<'_, S>,
    ) -> Result<Option<AccountRecord>, Fault> {
        let held = accounts_triples(alloc, tx, self.user, self.moment)?;
        least_of(tx, &held, self.after)
    }
}

/// The accounts above a number that a user is shown, by number, each once, at most `count`.
#[derive(Clone, Copy)]
pub struct Shown {
    /// The user.
    pub user: u32,
    /// The number that the accounts' are above.
    pub after: u32,
    /// The most of them.
    pub count: u32,
    /// The moment of the question.
    pub moment: u64,
}

impl Question for Shown {
    type Answer = Vec<AccountRecord>;

    ghost says = { λ asked w rows. rows.items ≡ shown w asked.user asked.after asked.count asked.moment };

    fn ask<S: Alter>(
        &self,
        alloc: Global,
        tx: &mut Transaction<'_, S>,
    ) -> Result<Vec<AccountRecord>, Fault> {
        let triples = accounts_triples(alloc, tx, self.user, self.moment)?;
        held_above(alloc, tx, &triples, self.after, self.count)
    }
}
