//! Entries, each with the balance of its account after it, read from the rows of their table.

use crate::cells::{count_at, number_at};
use crate::table_row::TableRow;
use crate::values::{delta_at, entry_form_at, sum_at};
use bank_books::{Entry, EntryRecord};
use money::Fault;
use sqlite::Row;
use std::alloc::Global;

/// The text of a query for entries that ends as given. Its columns stand in the order in which a row is read.
#[macro_export]
macro_rules! select_entries {
    ($rest:literal) => {
        concat!(
            "SELECT branch, number, account, turn, teller, delta, moment, day, user_no, form, partner, undoes, balance_after FROM entries ",
            $rest
        )
    };
}

impl TableRow for EntryRecord {
    ghost use Rattle.book_kept.specs.Sheets.{entry_no};
    ghost use Rattle.sql_schema.specs.Cells.{EntryFits, entry_cells};
    ghost use Rattle.sql_schema.specs.Held.Sheet.{entries as in_entries};
    ghost use Rattle.sql_schema.specs.HeldRows.{all_but_rowid};
    ghost use Rattle.sql_schema.specs.Readable.{IsReadableEntry};
    ghost use Rattle.sql_schema.specs.ReadBack.{stored_by_columns};

    ghost sheet = { in_entries };

    ghost cells = { entry_cells };

    ghost key = { entry_no };

    ghost shows = { all_but_rowid };

    ghost stated = { stored_by_columns 13 };

    ghost shown = { entry_cells };

    ghost fits = { EntryFits };

    ghost readable = { IsReadableEntry };

    fn read(_alloc: Global, row: &Row) -> Result<EntryRecord, Fault> {
        Ok(EntryRecord {
            row: Entry {
                branch: number_at(row, 0)?,
                number: number_at(row, 1)?,
                account: number_at(row, 2)?,
                turn: number_at(row, 3)?,
                teller: number_at(row, 4)?,
                delta: delta_at(row, 5)?,
                moment: count_at(row, 6)?,
                day: number_at(row, 7)?,
                user: number_at(row, 8)?,
                form: entry_form_at(row, 9)?,
                partner: number_at(row, 10)?,
                undoes: number_at(row, 11)?,
            },
            balance_after: sum_at(row, 12)?,
        })
    }
}
