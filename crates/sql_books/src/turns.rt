//! The entries of an account, found by their turns: one of them, or several in a row.

ghost use Rattle.std.specs.Prelude.{◌≡◌, ◌<◌, ◌≤◌, ◌∷◌, ◌^◌, [], pos, IfErr, IfOk, IsTrue, OnOk};
ghost use Rattle.std.specs.List.{find};
ghost use Rattle.money.specs.declared.fault.Fault.TheVariants.{Size};
ghost use Rattle.sqlite.specs.Held.{state};
ghost use Rattle.sqlite.specs.State.{HasCleanDisk};
ghost use Rattle.sqlite.specs.declared.types.Value.TheVariants.{Int};
ghost use Rattle.sql_schema.specs.Steps.{FindsHeld, FindsHeldInside, Reads, Step};
ghost use Rattle.sql_books.specs.Given.{given_turn};
ghost use Rattle.sql_books.specs.Picks.{is_entry_at};
ghost use Rattle.sql_books.specs.Turns.{entries_from};

use bank_books::EntryRecord;
use money::Fault;
use sql_schema::{count_cell, picked, select_entries};
use sqlite::{Alter, Transaction, params};
use std::alloc::Global;

/// What is given with the query for an account's entry of a turn.
#[derive(Drop)]
struct TurnCells {
    account: u32,
    turn: i64,
}

fn cells_of(account: u32, turn: u64) -> Result<TurnCells, Fault>
    ensures cells { IfOk result (λ c. given_turn c ≡ Int (pos account) ∷ Int (pos turn) ∷ []) }
    ensures err { IfErr result (λ fault. (fault ≡ Size) × (2 ^ 63 ≤ turn)) }
{
    Ok(TurnCells {
        account,
        turn: count_cell(turn)?,
    })
}

fn entry_of_turn<S: Alter>(
    tx: &mut Transaction<'_, S>,
    account: u32,
    turn: u64,
) -> Result<Option<EntryRecord>, Fault>
    ensures reads { Reads S.Store tx.old.conn tx.new.conn result }
    ensures found { FindsHeld (state S.Store tx.old.conn.now) (state S.Store tx.new.conn.now) result (λ s found. found ≡ find (is_entry_at account turn) s.entries) }
{
    let cells = cells_of(account, turn)?;
    picked(
        tx,
        select_entries!("WHERE account = ?1 AND turn = ?2 ORDER BY branch, number LIMIT 1"),
        params![cells.account, &cells.turn],
    )
}

/// The entry of an account that is its turn of this number, with the balance after it, or none where
/// it isn't there.
pub fn entry_at<S: Alter>(
    tx: &mut Transaction<'_, S>,
    account: u32,
    turn: u32,
) -> Result<Option<EntryRecord>, Fault>
    ensures reads { Reads S.Store tx.old.conn tx.new.conn result }
    ensures found { FindsHeld (state S.Store tx.old.conn.now) (state S.Store tx.new.conn.now) result (λ s found. found ≡ find (is_entry_at account turn) s.entries) }
{
    entry_of_turn(tx, account, u64::from(turn))
}

/// The entries of an account that are its turns `start`, `start + 1` and so on, as long as they are
/// there, at most `count`, each with the balance after it.
pub fn entries_from<S: Alter>(
    alloc: Global,
    tx: &mut Transaction<'_, S>,
    account: u32,
    start: u32,
    count: u32,
) -> Result<Vec<EntryRecord>, Fault>
    ensures step { Step S.Store tx.old.conn tx.new.conn (λ s. s) result }
    ensures listed { FindsHeldInside (state S.Store tx.old.conn.now) (state S.Store tx.new.conn.now) result (λ s rows. rows.items ≡ entries_from s.entries account start count) }
    ensures open { HasCleanDisk (state S.Store tx.new.conn.now) → OnOk result (0 < count → IsTrue (state S.Store tx.old.conn.now).is_open) × (IsTrue (state S.Store tx.new.conn.now).is_open → IsTrue (state S.Store tx.old.conn.now).is_open) }
{
    let first = u64::from(start);
    let mut rows = Vec::new(alloc);
    for turn in first..first + u64::from(count) {
        match entry_of_turn(tx, account, turn)? {
            Some(row) => rows.push(row)?,
            None => return Ok(rows),
        }
    }
    Ok(rows)
}
