//! The accounts that a user is shown: those above a number as a list, or only the next one.

ghost use Rattle.std.specs.Prelude.{◌≡◌, IfOk};
ghost use Rattle.std.specs.List.{find, list_any};
ghost use Rattle.std.specs.Option.{option_copied};
ghost use Rattle.bank_policy.specs.Tests.{is_within};
ghost use Rattle.bank_terms.specs.declared.item.Kind.TheVariants as kind;
ghost use Rattle.world_reads.specs.BookReads.{accounts_triples, is_account_after, is_account_of, next_shown, shown};

use bank_books::{Account, AccountRecord, World, account_record_of};
use bank_policy::{HeldRow, Member, keep_current, triples_of};
use bank_terms::{Kind, Procedure};
use std::alloc::{AllocError, Global};

/// The accounts above a number that lie in the set of a triple, valid at the moment, of this user for the
/// list of accounts: by number, each once, at most `count`, with their balances. Only memory keeps them
/// from an answer.
pub fn shown(
    alloc: Global,
    world: &World,
    user: u32,
    after: u32,
    count: u32,
    moment: u64,
) -> Result<Vec<AccountRecord>, AllocError>
    ensures { IfOk result (λ rows. rows.items ≡ shown world.now user after count moment) }
{
    let held = accounts_triples(alloc, world, user, moment)?;
    let mut rows = Vec::new(alloc);
    for account in world.accounts() {
        if rows.len() as u64 == u64::from(count) {
            return Ok(rows);
        }
        if is_account_after(&held, after, account) {
            rows.push(account_record_of(world, account))?;
        }
    }
    Ok(rows)
}

/// The first of the accounts above a number that the user is shown, or none where there is no more.
/// Only memory keeps it from an answer.
pub fn next_shown(
    alloc: Global,
    world: &World,
    user: u32,
    after: u32,
    moment: u64,
) -> Result<Option<AccountRecord>, AllocError>
    ensures { IfOk result (λ row. row ≡ next_shown world.now user after moment) }
{
    let held = accounts_triples(alloc, world, user, moment)?;
    match account_after(world.accounts(), &held, after) {
        Some(row) => Ok(Some(account_record_of(world, row))),
        None => Ok(None),
    }
}

/// The user's triples for the list of accounts that are valid at the moment.
fn accounts_triples(
    alloc: Global,
    world: &World,
    user: u32,
    moment: u64,
) -> Result<Vec<HeldRow>, AllocError>
    ensures { IfOk result (λ rows. rows.items ≡ accounts_triples world.now user moment) }
{
    let mut held = triples_of(alloc, world.policy(), user, Procedure::Accounts)?;
    keep_current(&mut held, moment);
    Ok(held)
}

/// The first account above a number that lies in the set of one of these triples.
fn account_after<'a>(accounts: &'a [Account], held: &[HeldRow], after: u32) -> Option<&'a Account>
    ensures { option_copied result ≡ find (is_account_after held.now after) accounts.now }
{
    accounts
        .iter()
        .find(|account| is_account_after(held, after, account))
}

fn is_account_after(held: &[HeldRow], after: u32, account: &Account) -> bool
    ensures { result ≡ is_account_after held.now after account.now }
{
    account.account > after && is_account_of(held, account.account)
}

fn is_account_of(held: &[HeldRow], account: u32) -> bool
    ensures { result ≡ is_account_of held.now account }
{
    held.iter().any(|row| is_in_set(row.members(), account))
}

fn is_in_set(members: &[Member], account: u32) -> bool
    ensures { result ≡ list_any (is_within (record { kind = kind.Account; key = account })) members.now }
{
    members.iter().any(|member| is_within(member, account))
}

fn is_within(member: &Member, account: u32) -> bool
    ensures { result ≡ is_within (record { kind = kind.Account; key = account }) member.now }
{
    matches!(member.kind, Kind::Account) && member.low <= account && account <= member.high
}
