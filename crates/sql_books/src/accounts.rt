//! The accounts in their table, each with its balance and how many turns it has had.

ghost use Rattle.std.specs.Prelude.{◌≡◌, ◌==◌, IfOk};
ghost use Rattle.std.specs.List.{find};
ghost use Rattle.sqlite.specs.Held.{state};
ghost use Rattle.keyed_rows.specs.Ordered.{add_row};
ghost use Rattle.book_kept.specs.Named.{IsFree};
ghost use Rattle.book_kept.specs.Sheets.{account_no, set_row};
ghost use Rattle.sql_schema.specs.Steps.{FindsHeld, Frame, Reads, RunsInside, Step, Tells};
ghost use Rattle.sql_books.specs.Given.{given_account};
ghost use Rattle.sql_books.specs.Picks.{is_account_between};
ghost use Rattle.sql_schema.specs.Shown.{shown_account};
ghost use Rattle.sql_books.specs.Texts.{add_account_text, set_account_text};

use bank_books::AccountRecord;
use money::Fault;
use sql_schema::{count_cell, picked, run, select_accounts, sum_cell};
use sqlite::{Alter, Transaction, params};

/// The row of this account with the numbers that are kept beside it, or none where it isn't there.
pub fn account_of<S: Alter>(
    tx: &mut Transaction<'_, S>,
    account: u32,
) -> Result<Option<AccountRecord>, Fault>
    ensures reads { Reads S.Store tx.old.conn tx.new.conn result }
    ensures found { FindsHeld (state S.Store tx.old.conn.now) (state S.Store tx.new.conn.now) result (λ s found. found ≡ find (λ r. account_no r == account) s.accounts) }
{
    picked(tx, select_accounts!("WHERE account = ?1"), params![account])
}

/// The account of the least number from `low` to `high`, or none where there is none.
pub fn least_account<S: Alter>(
    tx: &mut Transaction<'_, S>,
    low: u32,
    high: u32,
) -> Result<Option<AccountRecord>, Fault>
    ensures reads { Reads S.Store tx.old.conn tx.new.conn result }
    ensures found { FindsHeld (state S.Store tx.old.conn.now) (state S.Store tx.new.conn.now) result (λ s found. found ≡ find (is_account_between low high) s.accounts) }
{
    picked(
        tx,
        select_accounts!("WHERE account >= ?1 AND account <= ?2 ORDER BY account LIMIT 1"),
        params![low, high],
    )
}

/// What is given with a statement that writes an account.
#[derive(Drop)]
struct AccountCells {
    account: u32,
    home: u32,
    opening: i64,
    floor: i64,
    balance: i64,
    turns: i64,
}

fn cells_of(account: &AccountRecord) -> Result<AccountCells, Fault>
    ensures { IfOk result (λ c. given_account c ≡ shown_account account.now) }
{
    Ok(AccountCells {
        account: account.row.account,
        home: account.row.home,
        opening: account.row.opening.get(),
        floor: account.row.floor.get(),
        balance: sum_cell(&account.balance)?,
        turns: count_cell(account.turns)?,
    })
}

fn insert_account<S: Alter>(
    tx: &mut Transaction<'_, S>,
    cells: &AccountCells,
) -> Result<usize, Fault>
    ensures frame { Frame S.Store tx.old.conn tx.new.conn }
    ensures runs { RunsInside add_account_text (given_account cells.now) (state S.Store tx.old.conn.now) (state S.Store tx.new.conn.now) result }
{
    run(
        tx,
        "INSERT INTO accounts (account, home, opening, floor, balance, turns) VALUES (?1, ?2, ?3, ?4, ?5, ?6)",
        params![
            cells.account,
            cells.home,
            &cells.opening,
            &cells.floor,
            &cells.balance,
            &cells.turns
        ],
    )
}

/// Adds an account. One whose number is taken is a fault of the disk.
pub fn add_account<S: Alter>(
    tx: &mut Transaction<'_, S>,
    account: &AccountRecord,
) -> Result<(), Fault>
    ensures step { Step S.Store tx.old.conn tx.new.conn (λ s. record s { accounts = add_row account_no account.now s.accounts }) result }
    ensures free { Tells (state S.Store tx.old.conn.now) (state S.Store tx.new.conn.now) (λ s. IsFree account_no s.accounts (account_no account.now)) result }
{
    let cells = cells_of(account)?;
    insert_account(tx, &cells)?;
    Ok(())
}

fn update_account<S: Alter>(
    tx: &mut Transaction<'_, S>,
    cells: &AccountCells,
) -> Result<usize, Fault>
    ensures frame { Frame S.Store tx.old.conn tx.new.conn }
    ensures runs { RunsInside set_account_text (given_account cells.now) (state S.Store tx.old.conn.now) (state S.Store tx.new.conn.now) result }
{
    run(
        tx,
        "UPDATE accounts SET home = ?2, opening = ?3, floor = ?4, balance = ?5, turns = ?6 WHERE account = ?1",
        params![
            cells.account,
            cells.home,
            &cells.opening,
            &cells.floor,
            &cells.balance,
            &cells.turns
        ],
    )
}

/// Writes an account in place of the one of its number.
pub fn set_account<S: Alter>(
    tx: &mut Transaction<'_, S>,
    account: &AccountRecord,
) -> Result<(), Fault>
    ensures step { Step S.Store tx.old.conn tx.new.conn (λ s. record s { accounts = set_row account_no account.now s.accounts }) result }
{
    let cells = cells_of(account)?;
    update_account(tx, &cells)?;
    Ok(())
}
