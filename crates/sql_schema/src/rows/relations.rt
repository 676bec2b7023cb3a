//! Relations, each with the user who certified it, read from the rows of their table.

use crate::cells::{number_at, procedure_at};
use crate::table_row::TableRow;
use bank_policy::Relation;
use money::Fault;
use sqlite::Row;
use std::alloc::Global;

/// The text of a query for relations that ends as given. Its columns stand in the order in which a row is read.
#[macro_export]
macro_rules! select_relations {
    ($rest:literal) => {
        concat!(
            "SELECT procedure, set_no, by_user FROM relations ",
            $rest
        )
    };
}

impl TableRow for Relation {
    ghost use Rattle.bank_policy.specs.PolicyKeys.{relation_key};
    ghost use Rattle.sql_schema.specs.Cells.{RelationFits, relation_cells};
    ghost use Rattle.sql_schema.specs.Held.Sheet.{relations as in_relations};
    ghost use Rattle.sql_schema.specs.HeldRows.{all_but_rowid};
    ghost use Rattle.sql_schema.specs.Readable.{IsReadableRelation};
    ghost use Rattle.sql_schema.specs.ReadBack.{stored_by_columns};

    ghost sheet = { in_relations };

    ghost cells = { relation_cells };

    ghost key = { relation_key };

    ghost shows = { all_but_rowid };

    ghost stated = { stored_by_columns 3 };

    ghost shown = { relation_cells };

    ghost fits = { RelationFits };

    ghost readable = { IsReadableRelation };

    fn read(_alloc: Global, row: &Row) -> Result<Relation, Fault> {
        Ok(Relation {
            procedure: procedure_at(row, 0)?,
            set: number_at(row, 1)?,
            by: number_at(row, 2)?,
        })
    }
}
