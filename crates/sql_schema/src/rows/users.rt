//! Users, read from the rows of their table with the number of releases that is kept beside each.

use crate::cells::{count_at, number_at, truth_at};
use crate::table_row::TableRow;
use crate::values::name_at;
use bank_policy::User;
use book_kept::KeptUser;
use money::Fault;
use sqlite::Row;
use std::alloc::Global;

/// The text of a query for users that ends as given. Its columns stand in the order in which a row is read.
#[macro_export]
macro_rules! select_users {
    ($rest:literal) => {
        concat!(
            "SELECT user_no, name, officer, suspended, session, is_on, releases FROM users ",
            $rest
        )
    };
}

impl TableRow for KeptUser {
    ghost use Rattle.book_kept.specs.Sheets.{user_no};
    ghost use Rattle.sql_schema.specs.Cells.{AnyRow, user_cells};
    ghost use Rattle.sql_schema.specs.Held.Sheet.{users as in_users};
    ghost use Rattle.sql_schema.specs.HeldRows.{all_of_it};
    ghost use Rattle.sql_schema.specs.Readable.{IsReadableUser};
    ghost use Rattle.sql_schema.specs.Shown.{shown_user};
    ghost use Rattle.sql_schema.specs.ReadBack.{stored_by_rowid};

    ghost sheet = { in_users };

    ghost cells = { user_cells };

    ghost key = { user_no };

    ghost shows = { all_of_it };

    ghost stated = { stored_by_rowid 6 };

    ghost shown = { shown_user };

    ghost fits = { AnyRow };

    ghost readable = { IsReadableUser };

    fn read(alloc: Global, row: &Row) -> Result<KeptUser, Fault> {
        Ok(KeptUser {
            row: User {
                user: number_at(row, 0)?,
                name: name_at(alloc, row, 1)?,
                officer: truth_at(row, 2)?,
                suspended: truth_at(row, 3)?,
                session: number_at(row, 4)?,
                on: truth_at(row, 5)?,
            },
            releases: count_at(row, 6)?,
        })
    }
}
