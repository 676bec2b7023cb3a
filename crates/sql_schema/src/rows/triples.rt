//! Triples, each with its limit and its first and last moments, read from the rows of the table `grants`.

use crate::cells::{count_at, number_at, procedure_at};
use crate::table_row::TableRow;
use bank_policy::Triple;
use money::Fault;
use sqlite::Row;
use std::alloc::Global;

/// The text of a query for triples that ends as given. Its columns stand in the order in which a row is read.
#[macro_export]
macro_rules! select_triples {
    ($rest:literal) => {
        concat!(
            "SELECT user_no, procedure, set_no, ceiling, first_at, last_at FROM grants ",
            $rest
        )
    };
}

impl TableRow for Triple {
    ghost use Rattle.bank_policy.specs.PolicyKeys.{triple_key};
    ghost use Rattle.sql_schema.specs.Cells.{TripleFits, triple_cells};
    ghost use Rattle.sql_schema.specs.Held.Sheet.{triples as in_triples};
    ghost use Rattle.sql_schema.specs.HeldRows.{all_but_rowid};
    ghost use Rattle.sql_schema.specs.Readable.{IsReadableTriple};
    ghost use Rattle.sql_schema.specs.ReadBack.{stored_by_columns};

    ghost sheet = { in_triples };

    ghost cells = { triple_cells };

    ghost key = { triple_key };

    ghost shows = { all_but_rowid };

    ghost stated = { stored_by_columns 6 };

    ghost shown = { triple_cells };

    ghost fits = { TripleFits };

    ghost readable = { IsReadableTriple };

    fn read(_alloc: Global, row: &Row) -> Result<Triple, Fault> {
        Ok(Triple {
            user: number_at(row, 0)?,
            procedure: procedure_at(row, 1)?,
            set: number_at(row, 2)?,
            limit: number_at(row, 3)?,
            first: count_at(row, 4)?,
            last: count_at(row, 5)?,
        })
    }
}
