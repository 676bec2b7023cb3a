//! Sets, of which their table holds the numbers alone.

use crate::cells::number_at;
use crate::table_row::TableRow;
use money::Fault;
use sqlite::Row;
use std::alloc::Global;

/// The text of a query for sets that ends as given. Its columns stand in the order in which a row is read.
#[macro_export]
macro_rules! select_sets {
    ($rest:literal) => {
        concat!(
            "SELECT set_no FROM sets ",
            $rest
        )
    };
}

impl TableRow for u32 {
    ghost use Rattle.sql_schema.specs.Cells.{AnyRow, set_cells};
    ghost use Rattle.sql_schema.specs.Held.Sheet.{sets as in_sets};
    ghost use Rattle.sql_schema.specs.Held.{set_no};
    ghost use Rattle.sql_schema.specs.HeldRows.{all_of_it};
    ghost use Rattle.sql_schema.specs.Readable.{IsShort};
    ghost use Rattle.sql_schema.specs.Shown.{shown_set};
    ghost use Rattle.sql_schema.specs.ReadBack.{stored_by_rowid};

    ghost sheet = { in_sets };

    ghost cells = { set_cells };

    ghost key = { set_no };

    ghost shows = { all_of_it };

    ghost stated = { stored_by_rowid 0 };

    ghost shown = { shown_set };

    ghost fits = { AnyRow };

    ghost readable = { IsShort };

    fn read(_alloc: Global, row: &Row) -> Result<u32, Fault> {
        number_at(row, 0)
    }
}
