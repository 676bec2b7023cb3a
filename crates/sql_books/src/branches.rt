//! The branches in their table, each with its day, its sums and its counts.

ghost use Rattle.std.specs.Prelude.{◌≡◌, ◌==◌, IfOk};
ghost use Rattle.std.specs.List.{find};
ghost use Rattle.sqlite.specs.Held.{state};
ghost use Rattle.keyed_rows.specs.Ordered.{add_row};
ghost use Rattle.book_kept.specs.Named.{IsFree};
ghost use Rattle.book_kept.specs.Sheets.{branch_no, set_row};
ghost use Rattle.sql_schema.specs.Steps.{FindsHeld, Frame, Reads, RunsInside, Step, Tells};
ghost use Rattle.sql_books.specs.Given.{given_branch};
ghost use Rattle.sql_schema.specs.Shown.{shown_branch};
ghost use Rattle.sql_books.specs.Texts.{add_branch_text, set_branch_text};

use bank_books::BranchRecord;
use money::Fault;
use sql_schema::{count_cell, picked, run, select_branches, sum_cell};
use sqlite::{Alter, Transaction, params};

/// The row of this branch with the numbers that are kept beside it, or none where it isn't there.
pub fn branch_of<S: Alter>(
    tx: &mut Transaction<'_, S>,
    branch: u32,
) -> Result<Option<BranchRecord>, Fault>
    ensures reads { Reads S.Store tx.old.conn tx.new.conn result }
    ensures found { FindsHeld (state S.Store tx.old.conn.now) (state S.Store tx.new.conn.now) result (λ s found. found ≡ find (λ r. branch_no r == branch) s.branches) }
{
    picked(tx, select_branches!("WHERE branch = ?1"), params![branch])
}

/// What is given with a statement that writes a branch.
#[derive(Drop)]
struct BranchCells {
    branch: u32,
    opening: i64,
    cash: i64,
    day: u32,
    balance: i64,
    vault: i64,
    entries: i64,
    lines: i64,
    accounts: i64,
    history: i64,
    drawers: i64,
    cash_entries: i64,
    differences: i64,
}

fn cells_of(branch: &BranchRecord) -> Result<BranchCells, Fault>
    ensures { IfOk result (λ c. given_branch c ≡ shown_branch branch.now) }
{
    Ok(BranchCells {
        branch: branch.row.branch,
        opening: branch.row.opening.get(),
        cash: branch.row.cash.get(),
        day: branch.row.day,
        balance: sum_cell(&branch.balance)?,
        vault: sum_cell(&branch.vault)?,
        entries: count_cell(branch.entries)?,
        lines: count_cell(branch.lines)?,
        accounts: count_cell(branch.accounts)?,
        history: sum_cell(&branch.history)?,
        drawers: sum_cell(&branch.drawers)?,
        cash_entries: sum_cell(&branch.cash_entries)?,
        differences: sum_cell(&branch.differences)?,
    })
}

fn insert_branch<S: Alter>(tx: &mut Transaction<'_, S>, cells: &BranchCells) -> Result<usize, Fault>
    ensures frame { Frame S.Store tx.old.conn tx.new.conn }
    ensures runs { RunsInside add_branch_text (given_branch cells.now) (state S.Store tx.old.conn.now) (state S.Store tx.new.conn.now) result }
{
    run(
        tx,
        "INSERT INTO branches (branch, opening, cash, day, balance, vault, entries, lines, accounts, history, drawers, cash_entries, differences) VALUES (?1, ?2, ?3, ?4, ?5, ?6, ?7, ?8, ?9, ?10, ?11, ?12, ?13)",
        params![
            cells.branch,
            &cells.opening,
            &cells.cash,
            cells.day,
            &cells.balance,
            &cells.vault,
            &cells.entries,
            &cells.lines,
            &cells.accounts,
            &cells.history,
            &cells.drawers,
            &cells.cash_entries,
            &cells.differences
        ],
    )
}

/// Adds a branch. One whose number is taken is a fault of the disk.
pub fn add_branch<S: Alter>(tx: &mut Transaction<'_, S>, branch: &BranchRecord) -> Result<(), Fault>
    ensures step { Step S.Store tx.old.conn tx.new.conn (λ s. record s { branches = add_row branch_no branch.now s.branches }) result }
    ensures free { Tells (state S.Store tx.old.conn.now) (state S.Store tx.new.conn.now) (λ s. IsFree branch_no s.branches (branch_no branch.now)) result }
{
    let cells = cells_of(branch)?;
    insert_branch(tx, &cells)?;
    Ok(())
}

fn update_branch<S: Alter>(tx: &mut Transaction<'_, S>, cells: &BranchCells) -> Result<usize, Fault>
    ensures frame { Frame S.Store tx.old.conn tx.new.conn }
    ensures runs { RunsInside set_branch_text (given_branch cells.now) (state S.Store tx.old.conn.now) (state S.Store tx.new.conn.now) result }
{
    run(
        tx,
        "UPDATE branches SET opening = ?2, cash = ?3, day = ?4, balance = ?5, vault = ?6, entries = ?7, lines = ?8, accounts = ?9, history = ?10, drawers = ?11, cash_entries = ?12, differences = ?13 WHERE branch = ?1",
        params![
            cells.branch,
            &cells.opening,
            &cells.cash,
            cells.day,
            &cells.balance,
            &cells.vault,
            &cells.entries,
            &cells.lines,
            &cells.accounts,
            &cells.history,
            &cells.drawers,
            &cells.cash_entries,
            &cells.differences
        ],
    )
}

/// Writes a branch in place of the one of its number.
pub fn set_branch<S: Alter>(tx: &mut Transaction<'_, S>, branch: &BranchRecord) -> Result<(), Fault>
    ensures step { Step S.Store tx.old.conn tx.new.conn (λ s. record s { branches = set_row branch_no branch.now s.branches }) result }
{
    let cells = cells_of(branch)?;
    update_branch(tx, &cells)?;
    Ok(())
}
