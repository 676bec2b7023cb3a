//! Members of sets, each with its set and its place in it, read from the rows of their table.

use crate::cells::{kind_at, number_at};
use crate::table_row::TableRow;
use bank_policy::Member;
use book_kept::MemberRow;
use money::Fault;
use sqlite::Row;
use std::alloc::Global;

/// The text of a query for members that ends as given. Its columns stand in the order in which a row is read.
#[macro_export]
macro_rules! select_members {
    ($rest:literal) => {
        concat!(
            "SELECT set_no, place, kind, low, high FROM members ",
            $rest
        )
    };
}

impl TableRow for MemberRow {
    ghost use Rattle.book_kept.specs.Sheets.{member_no};
    ghost use Rattle.sql_schema.specs.Cells.{MemberFits, member_cells};
    ghost use Rattle.sql_schema.specs.Held.Sheet.{members as in_members};
    ghost use Rattle.sql_schema.specs.HeldRows.{all_but_rowid};
    ghost use Rattle.sql_schema.specs.Readable.{IsReadableMember};
    ghost use Rattle.sql_schema.specs.ReadBack.{stored_by_columns};

    ghost sheet = { in_members };

    ghost cells = { member_cells };

    ghost key = { member_no };

    ghost shows = { all_but_rowid };

    ghost stated = { stored_by_columns 5 };

    ghost shown = { member_cells };

    ghost fits = { MemberFits };

    ghost readable = { IsReadableMember };

    fn read(_alloc: Global, row: &Row) -> Result<MemberRow, Fault> {
        Ok(MemberRow {
            set: number_at(row, 0)?,
            place: number_at(row, 1)?,
            member: Member {
                kind: kind_at(row, 2)?,
                low: number_at(row, 3)?,
                high: number_at(row, 4)?,
            },
        })
    }
}
