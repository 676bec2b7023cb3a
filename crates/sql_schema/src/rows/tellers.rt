//! Tellers, read from the rows of their table with the balance, the cash and the holder kept beside each.

use crate::cells::{cents_at, number_at};
use crate::table_row::TableRow;
use crate::values::sum_at;
use bank_books::Teller;
use book_kept::KeptTeller;
use money::Fault;
use sqlite::Row;
use std::alloc::Global;

/// The text of a query for tellers that ends as given. Its columns stand in the order in which a row is read.
#[macro_export]
macro_rules! select_tellers {
    ($rest:literal) => {
        concat!(
            "SELECT teller, branch, opening, balance, cash, holder FROM tellers ",
            $rest
        )
    };
}

impl TableRow for KeptTeller {
    ghost use Rattle.book_kept.specs.Sheets.{teller_no};
    ghost use Rattle.sql_schema.specs.Cells.{AnyRow, teller_cells};
    ghost use Rattle.sql_schema.specs.Held.Sheet.{tellers as in_tellers};
    ghost use Rattle.sql_schema.specs.HeldRows.{all_of_it};
    ghost use Rattle.sql_schema.specs.Readable.{IsReadableTeller};
    ghost use Rattle.sql_schema.specs.Shown.{shown_teller};
    ghost use Rattle.sql_schema.specs.ReadBack.{stored_by_rowid};

    ghost sheet = { in_tellers };

    ghost cells = { teller_cells };

    ghost key = { teller_no };

    ghost shows = { all_of_it };

    ghost stated = { stored_by_rowid 5 };

    ghost shown = { shown_teller };

    ghost fits = { AnyRow };

    ghost readable = { IsReadableTeller };

    fn read(_alloc: Global, row: &Row) -> Result<KeptTeller, Fault> {
        Ok(KeptTeller {
            row: Teller {
                teller: number_at(row, 0)?,
                branch: number_at(row, 1)?,
                opening: cents_at(row, 2)?,
            },
            balance: sum_at(row, 3)?,
            cash: sum_at(row, 4)?,
            holder: number_at(row, 5)?,
        })
    }
}
