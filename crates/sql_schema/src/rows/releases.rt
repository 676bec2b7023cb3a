//! Releases, each with its operation and whether it was used, read from the rows of their table.

use crate::cells::{number_at, procedure_at, truth_at};
use crate::table_row::TableRow;
use crate::values::members_of;
use bank_books::Release;
use bank_terms::OperationRow;
use money::Fault;
use sqlite::Row;
use std::alloc::Global;

/// The text of a query for releases that ends as given. Its columns stand in the order in which a row is read.
#[macro_export]
macro_rules! select_releases {
    ($rest:literal) => {
        concat!(
            "SELECT user_no, number, giver, branch, day, form, member1, member2, member3, member4, member5, member6, member7, member8, used FROM releases ",
            $rest
        )
    };
}

impl TableRow for Release {
    ghost use Rattle.bank_books.specs.Keys.{release_key};
    ghost use Rattle.sql_schema.specs.Cells.{ReleaseFits, release_cells};
    ghost use Rattle.sql_schema.specs.Held.Sheet.{releases as in_releases};
    ghost use Rattle.sql_schema.specs.HeldRows.{all_but_rowid};
    ghost use Rattle.sql_schema.specs.Readable.{IsReadableRelease};
    ghost use Rattle.sql_schema.specs.ReadBack.{stored_by_columns};

    ghost sheet = { in_releases };

    ghost cells = { release_cells };

    ghost key = { release_key };

    ghost shows = { all_but_rowid };

    ghost stated = { stored_by_columns 15 };

    ghost shown = { release_cells };

    ghost fits = { ReleaseFits };

    ghost readable = { IsReadableRelease };

    fn read(_alloc: Global, row: &Row) -> Result<Release, Fault> {
        Ok(Release {
            user: number_at(row, 0)?,
            number: number_at(row, 1)?,
            giver: number_at(row, 2)?,
            branch: number_at(row, 3)?,
            day: number_at(row, 4)?,
            operation: OperationRow {
                form: procedure_at(row, 5)?,
                members: members_of(row)?,
            },
            used: truth_at(row, 14)?,
        })
    }
}
