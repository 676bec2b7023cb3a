//! Certifiers, each a user and a procedure, read from the rows of their table.

use crate::cells::{number_at, procedure_at};
use crate::table_row::TableRow;
use bank_policy::Certifier;
use money::Fault;
use sqlite::Row;
use std::alloc::Global;

/// The text of a query for certifiers that ends as given. Its columns stand in the order in which a row is read.
#[macro_export]
macro_rules! select_certifiers {
    ($rest:literal) => {
        concat!(
            "SELECT user_no, procedure FROM certifiers ",
            $rest
        )
    };
}

impl TableRow for Certifier {
    ghost use Rattle.bank_policy.specs.PolicyKeys.{certifier_key};
    ghost use Rattle.sql_schema.specs.Cells.{AnyRow, certifier_cells};
    ghost use Rattle.sql_schema.specs.Held.Sheet.{certifiers as in_certifiers};
    ghost use Rattle.sql_schema.specs.HeldRows.{all_but_rowid};
    ghost use Rattle.sql_schema.specs.Readable.{IsReadableCertifier};
    ghost use Rattle.sql_schema.specs.ReadBack.{stored_by_columns};

    ghost sheet = { in_certifiers };

    ghost cells = { certifier_cells };

    ghost key = { certifier_key };

    ghost shows = { all_but_rowid };

    ghost stated = { stored_by_columns 2 };

    ghost shown = { certifier_cells };

    ghost fits = { AnyRow };

    ghost readable = { IsReadableCertifier };

    fn read(_alloc: Global, row: &Row) -> Result<Certifier, Fault> {
        Ok(Certifier {
            user: number_at(row, 0)?,
            procedure: procedure_at(row, 1)?,
        })
    }
}
