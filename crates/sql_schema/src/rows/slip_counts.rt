//! How many slips each user has, read from the rows of a table of its own.

use crate::cells::{count_at, number_at};
use crate::table_row::TableRow;
use book_kept::SlipCount;
use money::Fault;
use sqlite::Row;
use std::alloc::Global;

/// The text of a query for counts of slips that ends as given. Its columns stand in the order in which a row is read.
#[macro_export]
macro_rules! select_slip_counts {
    ($rest:literal) => {
        concat!(
            "SELECT user_no, slips FROM slip_counts ",
            $rest
        )
    };
}

impl TableRow for SlipCount {
    ghost use Rattle.book_kept.specs.Sheets.{slip_no};
    ghost use Rattle.sql_schema.specs.Cells.{AnyRow, slip_count_cells};
    ghost use Rattle.sql_schema.specs.Held.Sheet.{slip_counts as in_slip_counts};
    ghost use Rattle.sql_schema.specs.HeldRows.{all_of_it};
    ghost use Rattle.sql_schema.specs.Readable.{IsReadableSlipCount};
    ghost use Rattle.sql_schema.specs.Shown.{shown_slip_count};
    ghost use Rattle.sql_schema.specs.ReadBack.{stored_by_rowid};

    ghost sheet = { in_slip_counts };

    ghost cells = { slip_count_cells };

    ghost key = { slip_no };

    ghost shows = { all_of_it };

    ghost stated = { stored_by_rowid 1 };

    ghost shown = { shown_slip_count };

    ghost fits = { AnyRow };

    ghost readable = { IsReadableSlipCount };

    fn read(_alloc: Global, row: &Row) -> Result<SlipCount, Fault> {
        Ok(SlipCount {
            user: number_at(row, 0)?,
            slips: count_at(row, 1)?,
        })
    }
}
