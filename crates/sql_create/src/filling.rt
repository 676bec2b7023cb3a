//! The rows of a World, written to tables that hold none.

ghost use Rattle.std.specs.Prelude.{◌≡◌, map, IfOk};
ghost use Rattle.bank_books.specs.Records.{kept_of};
ghost use Rattle.book_kept.specs.Records.{kept_user_of};
ghost use Rattle.sql_schema.specs.Steps.{Step};
ghost use Rattle.sql_create.specs.Filled.{filled, with_accounts, with_all, with_books, with_history, with_policy, with_rights, with_slips, with_user};

use crate::sheet_row::add_all;
use bank_books::World;
use bank_policy::{Name, Policy, User};
use book_kept::KeptUser;
use book_sums::Kept;
use money::Fault;
use sqlite::{Alter, Transaction};
use std::alloc::Global;

/// A user with the number of their releases.
fn kept_user(alloc: Global, user: &User, releases: u64) -> Result<KeptUser, Fault>
    ensures { IfOk result (λ kept. kept ≡ record { row = user.now; releases = releases }) }
{
    let name = Name::new(alloc, user.name.as_str())?;
    Ok(KeptUser {
        row: User {
            user: user.user,
            name,
            officer: user.officer,
            suspended: user.suspended,
            session: user.session,
            on: user.on,
        },
        releases,
    })
}

/// The users, each with the number of their releases.
fn kept_users(alloc: Global, world: &World, kept: &Kept) -> Result<Vec<KeptUser>, Fault>
    requires { kept.now ≡ kept_of world.now }
    ensures { IfOk result (λ users. users.items ≡ map (kept_user_of world.now) world.now.policy.users) }
{
    let rows = world.policy().users();
    let counts = kept.users();
    let mut users = Vec::with_capacity(alloc, rows.len())?;
    for row in rows {
        users.push(kept_user(alloc, row, counts[users.len()].releases)?)?;
    }
    Ok(users)
}

fn add_users<S: Alter>(
    alloc: Global,
    tx: &mut Transaction<'_, S>,
    world: &World,
    kept: &Kept,
) -> Result<(), Fault>
    requires { kept.now ≡ kept_of world.now }
    ensures step { Step S.Store tx.old.conn tx.new.conn (with_all with_user (map (kept_user_of world.now) world.now.policy.users)) result }
{
    let users = kept_users(alloc, world, kept)?;
    add_all(tx, &users)
}

/// The relations before the triples, each of which is of one of them.
fn add_rights<S: Alter>(tx: &mut Transaction<'_, S>, policy: &Policy) -> Result<(), Fault>
    ensures step { Step S.Store tx.old.conn tx.new.conn (with_rights policy.now) result }
{
    add_all(tx, policy.relations())?;
    add_all(tx, policy.triples())?;
    add_all(tx, policy.certifiers())
}

fn add_policy<S: Alter>(
    alloc: Global,
    tx: &mut Transaction<'_, S>,
    world: &World,
    kept: &Kept,
) -> Result<(), Fault>
    requires { kept.now ≡ kept_of world.now }
    ensures step { Step S.Store tx.old.conn tx.new.conn (with_policy world.now) result }
{
    let policy = world.policy();
    add_users(alloc, tx, world, kept)?;
    add_all(tx, policy.sets())?;
    add_rights(tx, policy)
}

fn add_accounts<S: Alter>(tx: &mut Transaction<'_, S>, kept: &Kept) -> Result<(), Fault>
    ensures step { Step S.Store tx.old.conn tx.new.conn (with_accounts kept.now) result }
{
    add_all(tx, kept.accounts())?;
    add_all(tx, kept.entries())
}

fn add_books<S: Alter>(tx: &mut Transaction<'_, S>, kept: &Kept) -> Result<(), Fault>
    ensures step { Step S.Store tx.old.conn tx.new.conn (with_books kept.now) result }
{
    add_all(tx, kept.branches())?;
    add_all(tx, kept.tellers())?;
    add_accounts(tx, kept)
}

fn add_history<S: Alter>(tx: &mut Transaction<'_, S>, world: &World) -> Result<(), Fault>
    ensures step { Step S.Store tx.old.conn tx.new.conn (with_history world.now) result }
{
    add_all(tx, world.lines())?;
    add_all(tx, world.proofs())?;
    add_all(tx, world.releases())
}

/// The slips, and how many each user has.
fn add_slips<S: Alter>(tx: &mut Transaction<'_, S>, world: &World, kept: &Kept) -> Result<(), Fault>
    ensures step { Step S.Store tx.old.conn tx.new.conn (with_slips world.now kept.now) result }
{
    add_all(tx, world.slips())?;
    add_all(tx, kept.users())
}

/// Writes all rows of the World, with the numbers that are kept beside them.
pub(crate) fn fill<S: Alter>(
    alloc: Global,
    tx: &mut Transaction<'_, S>,
    world: &World,
    kept: &Kept,
) -> Result<(), Fault>
    requires { kept.now ≡ kept_of world.now }
    ensures step { Step S.Store tx.old.conn tx.new.conn (filled world.now) result }
{
    add_policy(alloc, tx, world, kept)?;
    add_books(tx, kept)?;
    add_history(tx, world)?;
    add_slips(tx, world, kept)
}
