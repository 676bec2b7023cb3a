//! Proofs of days that were closed, read from the rows of the table `proofs`.

use crate::cells::{cents_at, number_at};
use crate::table_row::TableRow;
use bank_books::Proof;
use money::Fault;
use sqlite::Row;
use std::alloc::Global;

/// The text of a query for proofs of days that ends as given. Its columns stand in the order in which a row is read.
#[macro_export]
macro_rules! select_proofs {
    ($rest:literal) => {
        concat!(
            "SELECT branch, day, entries, balance, cash FROM proofs ",
            $rest
        )
    };
}

impl TableRow for Proof {
    ghost use Rattle.bank_books.specs.Keys.{proof_key};
    ghost use Rattle.sql_schema.specs.Cells.{ProofFits, proof_cells};
    ghost use Rattle.sql_schema.specs.Held.Sheet.{proofs as in_proofs};
    ghost use Rattle.sql_schema.specs.HeldRows.{all_but_rowid};
    ghost use Rattle.sql_schema.specs.Readable.{IsReadableProof};
    ghost use Rattle.sql_schema.specs.ReadBack.{stored_by_columns};

    ghost sheet = { in_proofs };

    ghost cells = { proof_cells };

    ghost key = { proof_key };

    ghost shows = { all_but_rowid };

    ghost stated = { stored_by_columns 5 };

    ghost shown = { proof_cells };

    ghost fits = { ProofFits };

    ghost readable = { IsReadableProof };

    fn read(_alloc: Global, row: &Row) -> Result<Proof, Fault> {
        Ok(Proof {
            branch: number_at(row, 0)?,
            day: number_at(row, 1)?,
            entries: number_at(row, 2)?,
            balance: cents_at(row, 3)?,
            cash: cents_at(row, 4)?,
        })
    }
}
