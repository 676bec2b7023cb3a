//! Questions about the books.

ghost use Rattle.std.specs.Prelude.{◌≡◌, ◌≢◌, ◌==◌, ◌&&◌, not, map, option_map, Contains, IfOk, List};
ghost use Rattle.bank_books.specs.Records.{account_record, branch_record, teller_record};
ghost use Rattle.bank_books.specs.declared.records.TellerRecord.{TellerRecord as TheTeller};
ghost use Rattle.book_kept.specs.Records.{kept_teller};
ghost use Rattle.world_reads.specs.BookReads.{drawer, drawer_record_of, entry, roster, undone, vault};

use crate::teller_rows::record_of;
use bank_books::{AccountRecord, BranchRecord, Entry, EntryRecord, TellerRecord};
use book_kept::KeptTeller;
use money::Fault;
use sql_schema::Question;
use sqlite::{Alter, Transaction};
use std::alloc::Global;
use world_reads::DrawerRecord;

/// The account of this number with its balance and turns, or none where it isn't there.
#[derive(Clone, Copy)]
pub struct AccountRow {
    /// The number.
    pub account: u32,
}

impl Question for AccountRow {
    type Answer = Option<AccountRecord>;

    ghost says = { λ asked w row. row ≡ account_record w asked.account };

    fn ask<S: Alter>(
        &self,
        alloc: Global,
        tx: &mut Transaction<'_, S>,
    ) -> Result<Option<AccountRecord>, Fault> {
        sql_books::account_of(tx, self.account)
    }
}

/// The branch of this number with its balance, its cash and its totals, or none where it isn't there.
#[derive(Clone, Copy)]
pub struct BranchRow {
    /// The number.
    pub branch: u32,
}

impl Question for BranchRow {
    type Answer = Option<BranchRecord>;

    ghost says = { λ asked w row. row ≡ branch_record w asked.branch };

    fn ask<S: Alter>(
        &self,
        alloc: Global,
        tx: &mut Transaction<'_, S>,
    ) -> Result<Option<BranchRecord>, Fault> {
        sql_books::branch_of(tx, self.branch)
    }
}

/// The teller of this number with its balance, or none where it isn't there.
#[derive(Clone, Copy)]
pub struct TellerRow {
    /// The number.
    pub teller: u32,
}

impl Question for TellerRow {
    type Answer = Option<TellerRecord>;

    ghost says = { λ asked w row. row ≡ teller_record w asked.teller };

    fn ask<S: Alter>(
        &self,
        alloc: Global,
        tx: &mut Transaction<'_, S>,
    ) -> Result<Option<TellerRecord>, Fault> {
        Ok(record_of(sql_books::teller_of(tx, self.teller)?))
    }
}

fn vault_of(found: Option<BranchRecord>) -> Option<i128>
    ensures { result ≡ option_map (λ row. row.vault) found }
{
    match found {
        Some(row) => Some(row.vault),
        None => None,
    }
}

/// The cash of a branch's vault in cents, or none where the branch isn't there.
#[derive(Clone, Copy)]
pub struct VaultCash {
    /// The branch.
    pub branch: u32,
}

impl Question for VaultCash {
    type Answer = Option<i128>;

    ghost says = { λ asked w cash. cash ≡ vault w asked.branch };

    fn ask<S: Alter>(
        &self,
        alloc: Global,
        tx: &mut Transaction<'_, S>,
    ) -> Result<Option<i128>, Fault> {
        Ok(vault_of(sql_books::branch_of(tx, self.branch)?))
    }
}

fn drawer_of(found: Option<TellerRecord>) -> Option<DrawerRecord>
    ensures { result ≡ option_map drawer_record_of found }
{
    match found {
        Some(row) => Some(DrawerRecord {
            cash: row.cash,
            holder: row.holder,
        }),
        None => None,
    }
}

/// The cash of a teller's drawer and who holds it, or none where the teller isn't there.
#[derive(Clone, Copy)]
pub struct DrawerRow {
    /// The teller.
    pub teller: u32,
}

impl Question for DrawerRow {
    type Answer = Option<DrawerRecord>;

    ghost says = { λ asked w row. row ≡ drawer w asked.teller };

    fn ask<S: Alter>(
        &self,
        alloc: Global,
        tx: &mut Transaction<'_, S>,
    ) -> Result<Option<DrawerRecord>, Fault> {
        Ok(drawer_of(record_of(sql_books::teller_of(tx, self.teller)?)))
    }
}

/// The tellers of whom these are kept.
fn records_of(alloc: Global, kept: &[KeptTeller]) -> Result<Vec<TellerRecord>, Fault>
    ensures { IfOk result (λ list. (there : List TheTeller) → kept.now ≡ map kept_teller there → ((t : TheTeller) → Contains there t → t.holder ≢ Some 0) → list.items ≡ there) }
{
    let mut list = Vec::new(alloc);
    for teller in kept {
        list.push(teller.to_record())?;
    }
    Ok(list)
}

/// The tellers of a branch, by number.
#[derive(Clone, Copy)]
pub struct Roster {
    /// The branch.
    pub branch: u32,
}

impl Question for Roster {
    type Answer = Vec<TellerRecord>;

    ghost says = { λ asked w rows. rows.items ≡ roster w asked.branch };

    fn ask<S: Alter>(
        &self,
        alloc: Global,
        tx: &mut Transaction<'_, S>,
    ) -> Result<Vec<TellerRecord>, Fault> {
        let kept = sql_books::roster(tx, self.branch)?;
        records_of(alloc, &kept)
    }
}

fn row_of(found: Option<EntryRecord>) -> Option<Entry>
    ensures { result ≡ option_map (λ e. e.row) found }
{
    match found {
        Some(kept) => Some(kept.row),
        None => None,
    }
}

/// The entry of this number in the history of a branch, or none where it isn't there.
#[derive(Clone, Copy)]
pub struct EntryRow {
    /// The branch.
    pub branch: u32,
    /// The number.
    pub number: u32,
}

impl Question for EntryRow {
    type Answer = Option<Entry>;

    ghost says = { λ asked w row. row ≡ entry w asked.branch asked.number };

    fn ask<S: Alter>(
        &self,
        alloc: Global,
        tx: &mut Transaction<'_, S>,
    ) -> Result<Option<Entry>, Fault> {
        Ok(row_of(sql_books::entry_of(tx, self.branch, self.number)?))
    }
}

/// The number 0 is none's.
fn is_of_one(number: u32, found: bool) -> bool
    ensures { result ≡ (not (number == 0) && found) }
{
    number != 0 && found
}

/// Whether an entry of the branch corrects the one of this number.
#[derive(Clone, Copy)]
pub struct IsUndone {
    /// The branch.
    pub branch: u32,
    /// The number.
    pub number: u32,
}

impl Question for IsUndone {
    type Answer = bool;

    ghost says = { λ asked w is. is ≡ undone w asked.branch asked.number };

    fn ask<S: Alter>(&self, alloc: Global, tx: &mut Transaction<'_, S>) -> Result<bool, Fault> {
        let found = sql_books::is_undone(tx, self.branch, self.number)?;
        Ok(is_of_one(self.number, found))
    }
}
