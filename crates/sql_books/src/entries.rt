//! The entries of the branches' histories in their table, and whether another entry corrects one of them.

ghost use Rattle.std.specs.Prelude.{◌≡◌, length, IfOk};
ghost use Rattle.std.specs.List.{filter, find, list_any};
ghost use Rattle.sqlite.specs.Held.{state};
ghost use Rattle.keyed_rows.specs.Ordered.{add_row};
ghost use Rattle.book_kept.specs.Named.{IsFree};
ghost use Rattle.book_kept.specs.Sheets.{entry_no};
ghost use Rattle.sql_schema.specs.Cells.{EntryFits, entry_cells};
ghost use Rattle.sql_schema.specs.Numbers.{entry_form_number};
ghost use Rattle.sql_schema.specs.Steps.{FindsHeld, Frame, Reads, RunsInside, Step, Tells};
ghost use Rattle.sql_books.specs.Given.{given_entry};
ghost use Rattle.sql_books.specs.Picks.{is_entry, undoes_entry};
ghost use Rattle.sql_books.specs.Texts.{add_entry_text};

use bank_books::{EntryForm, EntryRecord};
use money::Fault;
use sql_schema::{count_cell, picked, plain_rows, run, select_entries, sum_cell};
use sqlite::{Alter, Row, Transaction, params};

/// The entry of this number in the history of a branch with the balance after it, or none where it isn't there.
pub fn entry_of<S: Alter>(
    tx: &mut Transaction<'_, S>,
    branch: u32,
    number: u32,
) -> Result<Option<EntryRecord>, Fault>
    ensures reads { Reads S.Store tx.old.conn tx.new.conn result }
    ensures found { FindsHeld (state S.Store tx.old.conn.now) (state S.Store tx.new.conn.now) result (λ s found. found ≡ find (is_entry branch number) s.entries) }
{
    picked(
        tx,
        select_entries!("WHERE branch = ?1 AND number = ?2"),
        params![branch, number],
    )
}

/// The entries of the branch that correct the one of this number.
fn select_undoing<S: Alter>(
    tx: &mut Transaction<'_, S>,
    branch: u32,
    number: u32,
) -> Result<Vec<Row>, Fault>
    ensures reads { Reads S.Store tx.old.conn tx.new.conn result }
    ensures rows { FindsHeld (state S.Store tx.old.conn.now) (state S.Store tx.new.conn.now) result (λ s rows. length rows.items ≡ length (filter (undoes_entry branch number) s.entries)) }
{
    plain_rows(
        tx,
        "SELECT number FROM entries WHERE branch = ?1 AND undoes = ?2",
        params![branch, number],
    )
}

/// Whether an entry of the branch has this number as that of the entry which it corrects. 0 stands
/// there where it corrects none.
pub fn is_undone<S: Alter>(
    tx: &mut Transaction<'_, S>,
    branch: u32,
    number: u32,
) -> Result<bool, Fault>
    ensures reads { Reads S.Store tx.old.conn tx.new.conn result }
    ensures found { FindsHeld (state S.Store tx.old.conn.now) (state S.Store tx.new.conn.now) result (λ s undone. undone ≡ list_any (undoes_entry branch number) s.entries) }
{
    let rows = select_undoing(tx, branch, number)?;
    Ok(!rows.is_empty())
}

/// What is given with a statement that writes an entry.
#[derive(Drop)]
struct EntryCells {
    branch: u32,
    number: u32,
    account: u32,
    turn: u32,
    teller: u32,
    delta: i64,
    moment: i64,
    day: u32,
    user: u32,
    form: u32,
    partner: u32,
    undoes: u32,
    balance_after: i64,
}

fn form_number(form: EntryForm) -> u32
    ensures { result ≡ entry_form_number form }
{
    match form {
        EntryForm::Post => 1,
        EntryForm::TransferLeg => 2,
        EntryForm::Correction => 3,
    }
}

fn cells_of(entry: &EntryRecord) -> Result<EntryCells, Fault>
    ensures cells { IfOk result (λ c. given_entry c ≡ entry_cells entry.now) }
    ensures fits { IfOk result (λ _. EntryFits entry.now) }
{
    let number = entry.row.number;
    Ok(EntryCells {
        branch: entry.row.branch,
        number,
        account: entry.row.account,
        turn: entry.row.turn,
        teller: entry.row.teller,
        delta: entry.row.delta.get(),
        moment: count_cell(entry.row.moment)?,
        day: entry.row.day,
        user: entry.row.user,
        form: form_number(entry.row.form),
        partner: entry.row.partner,
        undoes: entry.row.undoes,
        balance_after: sum_cell(&entry.balance_after)?,
    })
}

fn insert_entry<S: Alter>(tx: &mut Transaction<'_, S>, cells: &EntryCells) -> Result<usize, Fault>
    ensures frame { Frame S.Store tx.old.conn tx.new.conn }
    ensures runs { RunsInside add_entry_text (given_entry cells.now) (state S.Store tx.old.conn.now) (state S.Store tx.new.conn.now) result }
{
    run(
        tx,
        "INSERT INTO entries (branch, number, account, turn, teller, delta, moment, day, user_no, form, partner, undoes, balance_after) VALUES (?1, ?2, ?3, ?4, ?5, ?6, ?7, ?8, ?9, ?10, ?11, ?12, ?13)",
        params![
            cells.branch,
            cells.number,
            cells.account,
            cells.turn,
            cells.teller,
            &cells.delta,
            &cells.moment,
            cells.day,
            cells.user,
            cells.form,
            cells.partner,
            cells.undoes,
            &cells.balance_after
        ],
    )
}

/// Adds an entry. One whose number is taken in its branch is a fault of the disk.
pub fn add_entry<S: Alter>(tx: &mut Transaction<'_, S>, entry: &EntryRecord) -> Result<(), Fault>
    ensures step { Step S.Store tx.old.conn tx.new.conn (λ s. record s { entries = add_row entry_no entry.now s.entries }) result }
    ensures free { Tells (state S.Store tx.old.conn.now) (state S.Store tx.new.conn.now) (λ s. IsFree entry_no s.entries (entry_no entry.now)) result }
{
    let cells = cells_of(entry)?;
    insert_entry(tx, &cells)?;
    Ok(())
}
