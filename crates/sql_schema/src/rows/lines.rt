//! Lines of the cash books of branches, read from the rows of their table.

use crate::cells::{cents_at, count_at, number_at};
use crate::table_row::TableRow;
use crate::values::line_form_at;
use bank_books::CashLine;
use money::Fault;
use sqlite::Row;
use std::alloc::Global;

/// The text of a query for cash lines that ends as given. Its columns stand in the order in which a row is read.
#[macro_export]
macro_rules! select_lines {
    ($rest:literal) => {
        concat!(
            "SELECT branch, number, place, amount, form, moment, day, user_no FROM lines ",
            $rest
        )
    };
}

impl TableRow for CashLine {
    ghost use Rattle.bank_books.specs.Keys.{line_key};
    ghost use Rattle.sql_schema.specs.Cells.{LineFits, line_cells};
    ghost use Rattle.sql_schema.specs.Held.Sheet.{lines as in_lines};
    ghost use Rattle.sql_schema.specs.HeldRows.{all_but_rowid};
    ghost use Rattle.sql_schema.specs.Readable.{IsReadableLine};
    ghost use Rattle.sql_schema.specs.ReadBack.{stored_by_columns};

    ghost sheet = { in_lines };

    ghost cells = { line_cells };

    ghost key = { line_key };

    ghost shows = { all_but_rowid };

    ghost stated = { stored_by_columns 8 };

    ghost shown = { line_cells };

    ghost fits = { LineFits };

    ghost readable = { IsReadableLine };

    fn read(_alloc: Global, row: &Row) -> Result<CashLine, Fault> {
        Ok(CashLine {
            branch: number_at(row, 0)?,
            number: number_at(row, 1)?,
            place: number_at(row, 2)?,
            amount: cents_at(row, 3)?,
            form: line_form_at(row, 4)?,
            moment: count_at(row, 5)?,
            day: number_at(row, 6)?,
            user: number_at(row, 7)?,
        })
    }
}
