//! The books of a synthetic bank: branches, tellers, accounts, entries and cash lines.

use crate::policy::{USER, synthetic_policy};
use crate::size::Size;
use crate::slips::add_slips;
use bank_books::{Account, Branch, CashLine, Entry, EntryForm, LineForm, Lists, Teller, World};
use money::{Cents, Delta, Fault};
use std::alloc::Global;

/// The tellers of each branch.
const TELLERS: u32 = 10;

/// The accounts at home at each branch.
const ACCOUNTS: u32 = 100;

/// What each account opened with, in cents.
const OPENING: i64 = 1_000_000;

/// The cash that each drawer is put on with, in cents.
const DRAWER: i64 = 1_000_000;

/// What the vault of each branch opened with, in cents.
const VAULT: i64 = 100_000_000;

/// A bank of this size on its first day. Its entries go to accounts of all branches and name each other in pairs, and every
/// drawer is held by the one user. None where an amount is out of range, which none is.
pub fn synthetic_world(alloc: Global, size: Size) -> Result<Option<World>, Fault> {
    let mut lists = Lists::new(alloc);
    let mut turns = Vec::new(alloc);
    for branch in 1..=size.branches {
        for _ in 0..ACCOUNTS {
            turns.push(0)?;
        }
        if add_branch(&mut lists, branch)?.is_none() {
            return Ok(None);
        }
    }
    for branch in 1..=size.branches {
        if add_history(&mut lists, &mut turns, branch, size.entries)?.is_none() {
            return Ok(None);
        }
    }
    add_slips(alloc, &mut lists, size.slips)?;
    let policy = synthetic_policy(alloc, size.triples)?;
    Ok(World::from_lists(lists, policy, 0))
}

/// Adds a branch with its tellers and its accounts.
fn add_branch(lists: &mut Lists, branch: u32) -> Result<Option<()>, Fault> {
    let (Some(opening), Some(share), Some(vault), Some(floor)) = (
        Cents::new(OPENING * ACCOUNTS as i64),
        Cents::new(OPENING * ACCOUNTS as i64 / TELLERS as i64),
        Cents::new(VAULT),
        Cents::new(0),
    ) else {
        return Ok(None);
    };
    let Some(each) = Cents::new(OPENING) else {
        return Ok(None);
    };
    lists.branches.push(Branch {
        branch,
        opening,
        cash: vault,
        day: 1,
    })?;
    for teller in 1..=TELLERS {
        lists.tellers.push(Teller {
            teller: place(branch, TELLERS, teller),
            branch,
            opening: share,
        })?;
    }
    for account in 1..=ACCOUNTS {
        lists.accounts.push(Account {
            account: place(branch, ACCOUNTS, account),
            home: branch,
            opening: each,
            floor,
        })?;
    }
    Ok(Some(()))
}

/// The number of a row of a branch, if each branch has `count`.
fn place(branch: u32, count: u32, index: u32) -> u32 {
    branch
        .saturating_sub(1)
        .saturating_mul(count)
        .saturating_add(index)
}

/// Adds the lines that put the drawers of a branch on, and its entries with their lines.
fn add_history(
    lists: &mut Lists,
    turns: &mut Vec<u32>,
    branch: u32,
    entries: u32,
) -> Result<Option<()>, Fault> {
    if add_drawers(lists, branch)?.is_none() {
        return Ok(None);
    }
    for number in 1..=entries {
        let Some(delta) = Delta::new(i64::from(number % 201) - 100) else {
            return Ok(None);
        };
        let partner = partner(number, entries);
        add_entry(lists, entry(turns, branch, number, partner, delta))?;
    }
    Ok(Some(()))
}

/// Adds the lines that put the drawers of a branch on.
fn add_drawers(lists: &mut Lists, branch: u32) -> Result<Option<()>, Fault> {
    let (Some(given), Some(taken)) = (Cents::new(DRAWER), Cents::new(-DRAWER)) else {
        return Ok(None);
    };
    for teller in 1..=TELLERS {
        let drawer = place(branch, TELLERS, teller);
        lists
            .lines
            .push(line(branch, 2 * teller - 1, 0, taken, LineForm::On))?;
        lists
            .lines
            .push(line(branch, 2 * teller, drawer, given, LineForm::On))?;
    }
    Ok(Some(()))
}

/// Adds an entry and the line of its cash.
fn add_entry(lists: &mut Lists, entry: Entry) -> Result<(), Fault> {
    let number = entry.number.saturating_add(2 * TELLERS);
    let cash = Cents::from(entry.delta);
    lists.lines.push(line(
        entry.branch,
        number,
        entry.teller,
        cash,
        LineForm::CashEntry,
    ))?;
    lists.entries.push(entry)?;
    Ok(())
}

/// The next entry of a branch, on an account of any branch.
fn entry(turns: &mut Vec<u32>, branch: u32, number: u32, partner: u32, delta: Delta) -> Entry {
    let account = some_account(turns.len() as u64, branch, number);
    let turn = next_turn(turns, account);
    Entry {
        branch,
        number,
        account,
        turn,
        teller: place(branch, TELLERS, number % TELLERS + 1),
        delta,
        moment: 0,
        day: 1,
        user: USER,
        form: EntryForm::Post,
        partner,
        undoes: 0,
    }
}

/// The other entry of a pair: 1 and 2 name each other, 3 and 4, and so on. The last of an odd number names none.
fn partner(number: u32, entries: u32) -> u32 {
    if number % 2 == 0 {
        number.saturating_sub(1)
    } else if number < entries {
        number.saturating_add(1)
    } else {
        0
    }
}

/// One of `accounts` accounts, spread over all of them.
fn some_account(accounts: u64, branch: u32, number: u32) -> u32 {
    let spread = branch as u64 * 7_919 + number as u64 * 104_729;
    let index = u32::try_from(spread % accounts.max(1)).unwrap_or(0);
    index.saturating_add(1)
}

/// Counts one turn more of an account.
fn next_turn(turns: &mut Vec<u32>, account: u32) -> u32 {
    let Some(turn) = turns.get_mut(account.saturating_sub(1) as usize) else {
        return 0;
    };
    *turn = turn.saturating_add(1);
    *turn
}

/// A line of a cash book.
fn line(branch: u32, number: u32, place: u32, amount: Cents, form: LineForm) -> CashLine {
    CashLine {
        branch,
        number,
        place,
        amount,
        form,
        moment: 0,
        day: 1,
        user: USER,
    }
}
