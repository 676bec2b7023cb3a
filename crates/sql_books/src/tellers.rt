//! The tellers in their table, each with its balance, its cash and the holder of its drawer.

ghost use Rattle.std.specs.Prelude.{◌≡◌, ◌==◌, IfOk};
ghost use Rattle.std.specs.List.{filter, find};
ghost use Rattle.sqlite.specs.Held.{state};
ghost use Rattle.keyed_rows.specs.Ordered.{add_row};
ghost use Rattle.book_kept.specs.Named.{IsFree};
ghost use Rattle.book_kept.specs.Sheets.{teller_no, set_row};
ghost use Rattle.sql_schema.specs.Steps.{FindsHeld, Frame, Reads, RunsInside, Step, Tells};
ghost use Rattle.sql_books.specs.Given.{given_teller};
ghost use Rattle.sql_books.specs.Picks.{is_teller_after, is_teller_of};
ghost use Rattle.sql_schema.specs.Shown.{shown_teller};
ghost use Rattle.sql_books.specs.Texts.{add_teller_text, set_teller_text};

use book_kept::KeptTeller;
use money::Fault;
use sql_schema::{listed, picked, run, select_tellers, sum_cell};
use sqlite::{Alter, Transaction, params};

/// The row of this teller with the numbers that are kept beside it, or none where it isn't there.
pub fn teller_of<S: Alter>(
    tx: &mut Transaction<'_, S>,
    teller: u32,
) -> Result<Option<KeptTeller>, Fault>
    ensures reads { Reads S.Store tx.old.conn tx.new.conn result }
    ensures found { FindsHeld (state S.Store tx.old.conn.now) (state S.Store tx.new.conn.now) result (λ s found. found ≡ find (λ r. teller_no r == teller) s.tellers) }
{
    picked(tx, select_tellers!("WHERE teller = ?1"), params![teller])
}

/// The tellers of this branch, by number, with the numbers that are kept beside them.
pub fn roster<S: Alter>(tx: &mut Transaction<'_, S>, branch: u32) -> Result<Vec<KeptTeller>, Fault>
    ensures reads { Reads S.Store tx.old.conn tx.new.conn result }
    ensures found { FindsHeld (state S.Store tx.old.conn.now) (state S.Store tx.new.conn.now) result (λ s tellers. tellers.items ≡ filter (is_teller_of branch) s.tellers) }
{
    listed(
        tx,
        select_tellers!("WHERE branch = ?1 ORDER BY teller"),
        params![branch],
    )
}

/// The next teller of this branch above a number, or none where there is no other.
pub fn next_teller<S: Alter>(
    tx: &mut Transaction<'_, S>,
    branch: u32,
    after: u32,
) -> Result<Option<KeptTeller>, Fault>
    ensures reads { Reads S.Store tx.old.conn tx.new.conn result }
    ensures found { FindsHeld (state S.Store tx.old.conn.now) (state S.Store tx.new.conn.now) result (λ s found. found ≡ find (is_teller_after branch after) s.tellers) }
{
    picked(
        tx,
        select_tellers!("WHERE branch = ?1 AND teller > ?2 ORDER BY teller LIMIT 1"),
        params![branch, after],
    )
}

/// What is given with a statement that writes a teller.
#[derive(Drop)]
struct TellerCells {
    teller: u32,
    branch: u32,
    opening: i64,
    balance: i64,
    cash: i64,
    holder: u32,
}

fn cells_of(teller: &KeptTeller) -> Result<TellerCells, Fault>
    ensures { IfOk result (λ c. given_teller c ≡ shown_teller teller.now) }
{
    Ok(TellerCells {
        teller: teller.row.teller,
        branch: teller.row.branch,
        opening: teller.row.opening.get(),
        balance: sum_cell(&teller.balance)?,
        cash: sum_cell(&teller.cash)?,
        holder: teller.holder,
    })
}

fn insert_teller<S: Alter>(tx: &mut Transaction<'_, S>, cells: &TellerCells) -> Result<usize, Fault>
    ensures frame { Frame S.Store tx.old.conn tx.new.conn }
    ensures runs { RunsInside add_teller_text (given_teller cells.now) (state S.Store tx.old.conn.now) (state S.Store tx.new.conn.now) result }
{
    run(
        tx,
        "INSERT INTO tellers (teller, branch, opening, balance, cash, holder) VALUES (?1, ?2, ?3, ?4, ?5, ?6)",
        params![
            cells.teller,
            cells.branch,
            &cells.opening,
            &cells.balance,
            &cells.cash,
            cells.holder
        ],
    )
}

/// Adds a teller. One whose number is taken is a fault of the disk.
pub fn add_teller<S: Alter>(tx: &mut Transaction<'_, S>, teller: &KeptTeller) -> Result<(), Fault>
    ensures step { Step S.Store tx.old.conn tx.new.conn (λ s. record s { tellers = add_row teller_no teller.now s.tellers }) result }
    ensures free { Tells (state S.Store tx.old.conn.now) (state S.Store tx.new.conn.now) (λ s. IsFree teller_no s.tellers (teller_no teller.now)) result }
{
    let cells = cells_of(teller)?;
    insert_teller(tx, &cells)?;
    Ok(())
}

fn update_teller<S: Alter>(tx: &mut Transaction<'_, S>, cells: &TellerCells) -> Result<usize, Fault>
    ensures frame { Frame S.Store tx.old.conn tx.new.conn }
    ensures runs { RunsInside set_teller_text (given_teller cells.now) (state S.Store tx.old.conn.now) (state S.Store tx.new.conn.now) result }
{
    run(
        tx,
        "UPDATE tellers SET branch = ?2, opening = ?3, balance = ?4, cash = ?5, holder = ?6 WHERE teller = ?1",
        params![
            cells.teller,
            cells.branch,
            &cells.opening,
            &cells.balance,
            &cells.cash,
            cells.holder
        ],
    )
}

/// Writes a teller in place of the one of its number.
pub fn set_teller<S: Alter>(tx: &mut Transaction<'_, S>, teller: &KeptTeller) -> Result<(), Fault>
    ensures step { Step S.Store tx.old.conn tx.new.conn (λ s. record s { tellers = set_row teller_no teller.now s.tellers }) result }
{
    let cells = cells_of(teller)?;
    update_teller(tx, &cells)?;
    Ok(())
}
