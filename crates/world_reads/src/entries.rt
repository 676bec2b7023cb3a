//! Entries by number and by turn, with the balances after them, and whether an entry is corrected.

ghost use Rattle.std.specs.Prelude.{◌≡◌, ◌*◌, ◌^◌, ◌≤ℤ◌, pos, neg_ℤ, length, IfOk};
ghost use Rattle.std.specs.List.{find, list_any};
ghost use Rattle.std.specs.Option.{option_copied};
ghost use Rattle.bank_books.specs.Balances.{deltas_up_to};
ghost use Rattle.bank_books.specs.Records.{entry_record_of};
ghost use Rattle.world_reads.specs.BookReads.{entries_of, entry, entry_at, is_entry, undoes_entry, undone};

use bank_books::{Entry, EntryRecord, World, account_opening};
use keyed_rows::{Tally, sum_of};
use std::alloc::{AllocError, Global};

/// The entry of this number in the history of a branch, or none where it isn't there. It takes no
/// memory.
pub fn entry(world: &World, branch: u32, number: u32) -> Option<bank_books::Entry>
    ensures { result ≡ entry world.now branch number }
{
    entry_row(world.entries(), branch, number).copied()
}

fn entry_row(entries: &[Entry], branch: u32, number: u32) -> Option<&Entry>
    ensures { option_copied result ≡ find (is_entry branch number) entries.now }
{
    entries
        .iter()
        .find(|row| row.branch == branch && row.number == number)
}

/// Whether some entry of the branch corrects the one of this number. Number 0 is that of none. It
/// takes no memory.
pub fn undone(world: &World, branch: u32, number: u32) -> bool
    ensures { result ≡ undone world.now branch number }
{
    number != 0 && is_undone(world.entries(), branch, number)
}

fn is_undone(entries: &[Entry], branch: u32, number: u32) -> bool
    ensures { result ≡ list_any (undoes_entry branch number) entries.now }
{
    entries
        .iter()
        .any(|row| row.branch == branch && row.undoes == number)
}

/// The entry of an account that is its turn of this number, with the balance after it, or none
/// where it isn't there. It takes no memory.
pub fn entry_at(world: &World, account: u32, turn: u32) -> Option<EntryRecord>
    ensures { result ≡ entry_at world.now account turn }
{
    entry_of_turn(world, account, u64::from(turn))
}

/// The entries of an account that are its turns `start`, `start + 1` and so on, as long as they are
/// there, at most `count`, each with the balance after it. Only memory keeps them from an answer.
pub fn entries_of(
    alloc: Global,
    world: &World,
    account: u32,
    start: u32,
    count: u32,
) -> Result<Vec<EntryRecord>, AllocError>
    ensures { IfOk result (λ rows. rows.items ≡ entries_of world.now account start count) }
{
    let first = u64::from(start);
    let mut rows = Vec::new(alloc);
    for turn in first..first + u64::from(count) {
        match entry_of_turn(world, account, turn) {
            Some(row) => rows.push(row)?,
            None => return Ok(rows),
        }
    }
    Ok(rows)
}

fn entry_of_turn(world: &World, account: u32, turn: u64) -> Option<EntryRecord>
    ensures { result ≡ entry_at world.now account turn }
{
    let row = world.entries().iter().find(|row| row.account == account
        && u64::from(row.turn) == turn)?;
    Some(entry_record_of(world, row))
}

fn entry_record_of(world: &World, row: &Entry) -> EntryRecord
    ensures { result ≡ entry_record_of world.now row.now }
{
    EntryRecord {
        row: *row,
        balance_after: account_opening(world, row.account)
            + deltas_up_to(world.entries(), row.account, row.turn),
    }
}

/// The entries of one account up to a turn.
#[derive(Clone, Copy)]
struct UpToTurn {
    account: u32,
    turn: u32,
}

impl Tally<Entry> for UpToTurn {
    ghost use Rattle.std.specs.Prelude.{◌==◌, ◌&&◌, pos, nat_le, if◌then◌else◌};

    ghost share = { λ q e. if e.account == q.account && nat_le e.turn q.turn then e.delta else pos 0 };

    fn share(&self, row: &Entry) -> i64 {
        if row.account == self.account && row.turn <= self.turn {
            row.delta.get()
        } else {
            0
        }
    }
}

/// The deltas of an account's entries up to a turn, added up.
fn deltas_up_to(entries: &[Entry], account: u32, turn: u32) -> i128
    ensures value { result ≡ deltas_up_to account turn entries.now }
    ensures low { neg_ℤ (pos (2 ^ 63 * length entries.now)) ≤ℤ result }
    ensures high { result ≤ℤ pos (2 ^ 63 * length entries.now) }
{
    sum_of(&UpToTurn { account, turn }, entries)
}
