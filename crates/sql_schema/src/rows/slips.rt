//! Slips, each with its operation and the stored reply, read from the rows of their table.

use crate::cells::{number_at, procedure_at};
use crate::table_row::TableRow;
use crate::values::{bytes_at, slip_members_of};
use bank_books::Slip;
use bank_terms::OperationRow;
use money::Fault;
use sqlite::Row;
use std::alloc::Global;

/// The text of a query for slips that ends as given. Its columns stand in the order in which a row is read.
#[macro_export]
macro_rules! select_slips {
    ($rest:literal) => {
        concat!(
            "SELECT user_no, slip, form, member1, member2, member3, member4, member5, member6, member7, member8, reply FROM slips ",
            $rest
        )
    };
}

impl TableRow for Slip {
    ghost use Rattle.bank_books.specs.Keys.{slip_key};
    ghost use Rattle.sql_schema.specs.Cells.{SlipFits, slip_cells};
    ghost use Rattle.sql_schema.specs.Held.Sheet.{slips as in_slips};
    ghost use Rattle.sql_schema.specs.HeldRows.{all_but_rowid};
    ghost use Rattle.sql_schema.specs.Readable.{IsReadableSlip};
    ghost use Rattle.sql_schema.specs.ReadBack.{stored_by_columns};

    ghost sheet = { in_slips };

    ghost cells = { slip_cells };

    ghost key = { slip_key };

    ghost shows = { all_but_rowid };

    ghost stated = { stored_by_columns 12 };

    ghost shown = { slip_cells };

    ghost fits = { SlipFits };

    ghost readable = { IsReadableSlip };

    fn read(_alloc: Global, row: &Row) -> Result<Slip, Fault> {
        let user = number_at(row, 0)?;
        let number = number_at(row, 1)?;
        let operation = OperationRow {
            form: procedure_at(row, 2)?,
            members: slip_members_of(row)?,
        };
        Ok(Slip::new(user, number, operation, bytes_at(row, 11)?))
    }
}
