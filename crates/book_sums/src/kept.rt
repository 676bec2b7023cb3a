//! All that a store keeps beside the rows of a World: as a store kept it, or computed from the rows.

use crate::records::Records;
use crate::sums::Sums;
use bank_books::{AccountRecord, BranchRecord, EntryRecord, ReleaseCount, TellerRecord, World};
use money::Fault;
use std::alloc::Global;
use std::marker::Model;

/// The numbers that a store keeps, each beside the row that it is of: balances, cash, holders,
/// counts and totals.
#[derive(Debug, Drop)]
pub struct Kept {
    records: Records,
    entries: Vec<EntryRecord>,
}

impl Model for Kept {
    ghost use Rattle.bank_books.specs.Records.{KeptLists};

    ghost Value = { KeptLists };

    ghost view = { λ k. record {
      branches = k.records.branches.items;
      tellers = k.records.tellers.items;
      accounts = k.records.accounts.items;
      entries = k.entries.items;
      users = k.records.users.items;
    } };
}

impl Kept {
    ghost use Rattle.std.specs.Prelude.{◌≡◌, IfOk, IsOkUnless};
    ghost use Rattle.bank_books.specs.Records.{kept_of};

    /// The numbers that a store kept, in the order of the rows.
    pub fn new(
        branches: Vec<BranchRecord>,
        tellers: Vec<TellerRecord>,
        accounts: Vec<AccountRecord>,
        entries: Vec<EntryRecord>,
        users: Vec<ReleaseCount>,
    ) -> Kept
        ensures { result ≡ record { branches = branches.items; tellers = tellers.items; accounts = accounts.items; entries = entries.items; users = users.items } }
    {
        let records = Records {
            branches,
            tellers,
            accounts,
            users,
        };
        Kept { records, entries }
    }

    /// What a store has to keep beside the rows of this World. Only memory keeps it from an answer.
    pub fn of(alloc: Global, world: &World) -> Result<Kept, Fault>
        ensures value { IfOk result (λ kept. kept ≡ kept_of world.now) }
        ensures memory { IsOkUnless result Fault.Memory }
    {
        let sums = Sums::of(alloc, world)?;
        Ok(Kept {
            records: Records::of(alloc, world, &sums)?,
            entries: entry_records(alloc, world, &sums)?,
        })
    }

    /// The branches with their numbers.
    pub fn branches(&self) -> &[BranchRecord]
        ensures { result.now ≡ self.now.branches }
    {
        &self.records.branches
    }

    /// The tellers with their numbers.
    pub fn tellers(&self) -> &[TellerRecord]
        ensures { result.now ≡ self.now.tellers }
    {
        &self.records.tellers
    }

    /// The accounts with their numbers.
    pub fn accounts(&self) -> &[AccountRecord]
        ensures { result.now ≡ self.now.accounts }
    {
        &self.records.accounts
    }

    /// The entries with the balances after them.
    pub fn entries(&self) -> &[EntryRecord]
        ensures { result.now ≡ self.now.entries }
    {
        &self.entries
    }

    /// The users' counts of releases.
    pub fn users(&self) -> &[ReleaseCount]
        ensures { result.now ≡ self.now.users }
    {
        &self.records.users
    }
}

ghost use Rattle.std.specs.Prelude.{◌≡◌, IfOk, IsOkUnless, map};
ghost use Rattle.bank_books.specs.Records.{entry_record_of};
ghost use Rattle.book_sums.specs.Sums.{AreSumsOf};

fn entry_records(alloc: Global, world: &World, sums: &Sums) -> Result<Vec<EntryRecord>, Fault>
    requires { AreSumsOf world.now sums.now }
    ensures value { IfOk result (λ records. records.items ≡ map (entry_record_of world.now) world.now.entries) }
    ensures memory { IsOkUnless result Fault.Memory }
{
    let rows = world.entries();
    let mut records = Vec::with_capacity(alloc, rows.len())?;
    for row in rows {
        records.push(sums.entry_record(world, row))?;
    }
    Ok(records)
}
