//! The lines of the cash books, added to their table and never changed.

ghost use Rattle.std.specs.Prelude.{◌≡◌, IfOk};
ghost use Rattle.sqlite.specs.Held.{state};
ghost use Rattle.keyed_rows.specs.Ordered.{add_row};
ghost use Rattle.bank_books.specs.Keys.{line_key};
ghost use Rattle.sql_schema.specs.Cells.{LineFits, line_cells};
ghost use Rattle.sql_schema.specs.Numbers.{line_form_number};
ghost use Rattle.sql_schema.specs.Steps.{Frame, RunsInside, Step};
ghost use Rattle.sql_books.specs.Given.{given_line};
ghost use Rattle.sql_books.specs.Texts.{add_line_text};

use bank_books::{CashLine, LineForm};
use money::Fault;
use sql_schema::{count_cell, run};
use sqlite::{Alter, Transaction, params};

/// What is given with the statement that adds a line.
#[derive(Clone, Copy)]
struct LineCells {
    branch: u32,
    number: u32,
    place: u32,
    amount: i64,
    form: u32,
    moment: i64,
    day: u32,
    user: u32,
}

fn form_number(form: LineForm) -> u32
    ensures { result ≡ line_form_number form }
{
    match form {
        LineForm::CashEntry => 1,
        LineForm::On => 2,
        LineForm::Off => 3,
        LineForm::Move => 4,
        LineForm::Difference => 5,
    }
}

fn cells_of(line: &CashLine) -> Result<LineCells, Fault>
    ensures cells { IfOk result (λ c. given_line c ≡ line_cells line.now) }
    ensures fits { IfOk result (λ _. LineFits line.now) }
{
    let number = line.number;
    Ok(LineCells {
        branch: line.branch,
        number,
        place: line.place,
        amount: line.amount.get(),
        form: form_number(line.form),
        moment: count_cell(line.moment)?,
        day: line.day,
        user: line.user,
    })
}

fn insert_line<S: Alter>(tx: &mut Transaction<'_, S>, cells: &LineCells) -> Result<usize, Fault>
    ensures frame { Frame S.Store tx.old.conn tx.new.conn }
    ensures runs { RunsInside add_line_text (given_line cells.now) (state S.Store tx.old.conn.now) (state S.Store tx.new.conn.now) result }
{
    run(
        tx,
        "INSERT INTO lines (branch, number, place, amount, form, moment, day, user_no) VALUES (?1, ?2, ?3, ?4, ?5, ?6, ?7, ?8)",
        params![
            cells.branch,
            cells.number,
            cells.place,
            &cells.amount,
            cells.form,
            &cells.moment,
            cells.day,
            cells.user
        ],
    )
}

/// Adds a line. One whose number is taken in the cash book of its branch is a fault of the disk, and a moment of more than 63 bits one of size.
pub fn add_line<S: Alter>(tx: &mut Transaction<'_, S>, line: &CashLine) -> Result<(), Fault>
    ensures step { Step S.Store tx.old.conn tx.new.conn (λ s. record s { lines = add_row line_key line.now s.lines }) result }
{
    let cells = cells_of(line)?;
    insert_line(tx, &cells)?;
    Ok(())
}
