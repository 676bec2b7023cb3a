//! What is kept beside branches, tellers, accounts and users, from the sums of a World.

ghost use Rattle.std.specs.Prelude.{◌≡◌, IfOk, IsOkUnless, map};
ghost use Rattle.bank_books.specs.Records.{account_record_of, branch_record_of, release_count_of, teller_record_of};
ghost use Rattle.book_sums.specs.Sums.{AreSumsOf};

use crate::holders::holders;
use crate::sums::Sums;
use bank_books::{AccountRecord, BranchRecord, ReleaseCount, TellerRecord, World};
use money::Fault;
use std::alloc::Global;

/// Branches, tellers and accounts with their numbers, and the users' counts of releases: all that is
/// kept but the balances after entries.
#[derive(Debug, Drop)]
pub struct Records {
    /// The branches with their numbers.
    pub branches: Vec<BranchRecord>,
    /// The tellers with their numbers.
    pub tellers: Vec<TellerRecord>,
    /// The accounts with their numbers.
    pub accounts: Vec<AccountRecord>,
    /// The users' counts of releases.
    pub users: Vec<ReleaseCount>,
}

impl Records {
    ghost use Rattle.std.specs.Prelude.{IfOk, IsOkUnless};
    ghost use Rattle.book_sums.specs.Records.{AreRecordsOf};
    ghost use Rattle.book_sums.specs.Sums.{AreSumsOf};

    /// What the sums of a World give. Only memory keeps it from an answer.
    pub fn of(alloc: Global, world: &World, sums: &Sums) -> Result<Records, Fault>
        requires { AreSumsOf world.now sums.now }
        ensures value { IfOk result (AreRecordsOf world.now) }
        ensures memory { IsOkUnless result Fault.Memory }
    {
        Ok(Records {
            branches: branch_records(alloc, world, sums)?,
            tellers: teller_records(alloc, world, sums)?,
            accounts: account_records(alloc, world, sums)?,
            users: release_counts(alloc, world, sums)?,
        })
    }
}

fn branch_records(alloc: Global, world: &World, sums: &Sums) -> Result<Vec<BranchRecord>, Fault>
    requires { AreSumsOf world.now sums.now }
    ensures value { IfOk result (λ records. records.items ≡ map (branch_record_of world.now) world.now.branches) }
    ensures memory { IsOkUnless result Fault.Memory }
{
    let rows = world.branches();
    let mut records = Vec::with_capacity(alloc, rows.len())?;
    for row in rows {
        records.push(sums.branch_record(world, row))?;
    }
    Ok(records)
}

fn teller_records(alloc: Global, world: &World, sums: &Sums) -> Result<Vec<TellerRecord>, Fault>
    requires { AreSumsOf world.now sums.now }
    ensures value { IfOk result (λ records. records.items ≡ map (teller_record_of world.now) world.now.tellers) }
    ensures memory { IsOkUnless result Fault.Memory }
{
    let tellers = world.tellers();
    let holders = holders(alloc, tellers, world.lines())?;
    let mut records = Vec::with_capacity(alloc, tellers.len())?;
    for index in 0..tellers.len() {
        records.push(sums.teller_record(&tellers[index], holders[index]))?;
    }
    Ok(records)
}

fn account_records(alloc: Global, world: &World, sums: &Sums) -> Result<Vec<AccountRecord>, Fault>
    requires { AreSumsOf world.now sums.now }
    ensures value { IfOk result (λ records. records.items ≡ map (account_record_of world.now) world.now.accounts) }
    ensures memory { IsOkUnless result Fault.Memory }
{
    let rows = world.accounts();
    let mut records = Vec::with_capacity(alloc, rows.len())?;
    for row in rows {
        records.push(sums.account_record(row))?;
    }
    Ok(records)
}

fn release_counts(alloc: Global, world: &World, sums: &Sums) -> Result<Vec<ReleaseCount>, Fault>
    requires { AreSumsOf world.now sums.now }
    ensures value { IfOk result (λ records. records.items ≡ map (release_count_of world.now) world.now.policy.users) }
    ensures memory { IsOkUnless result Fault.Memory }
{
    let rows = world.policy().users();
    let mut records = Vec::with_capacity(alloc, rows.len())?;
    for row in rows {
        records.push(sums.release_count(row))?;
    }
    Ok(records)
}
