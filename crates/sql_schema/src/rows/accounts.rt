//! Accounts, read from the rows of their table with the balance and the turns that are kept beside each.

use crate::cells::{cents_at, count_at, number_at};
use crate::table_row::TableRow;
use crate::values::sum_at;
use bank_books::{Account, AccountRecord};
use money::Fault;
use sqlite::Row;
use std::alloc::Global;

/// The text of a query for accounts that ends as given. Its columns stand in the order in which a row is read.
#[macro_export]
macro_rules! select_accounts {
    ($rest:literal) => {
        concat!(
            "SELECT account, home, opening, floor, balance, turns FROM accounts ",
            $rest
        )
    };
}

impl TableRow for AccountRecord {
    ghost use Rattle.book_kept.specs.Sheets.{account_no};
    ghost use Rattle.sql_schema.specs.Cells.{AnyRow, account_cells};
    ghost use Rattle.sql_schema.specs.Held.Sheet.{accounts as in_accounts};
    ghost use Rattle.sql_schema.specs.HeldRows.{all_of_it};
    ghost use Rattle.sql_schema.specs.Readable.{IsReadableAccount};
    ghost use Rattle.sql_schema.specs.Shown.{shown_account};
    ghost use Rattle.sql_schema.specs.ReadBack.{stored_by_rowid};

    ghost sheet = { in_accounts };

    ghost cells = { account_cells };

    ghost key = { account_no };

    ghost shows = { all_of_it };

    ghost stated = { stored_by_rowid 5 };

    ghost shown = { shown_account };

    ghost fits = { AnyRow };

    ghost readable = { IsReadableAccount };

    fn read(_alloc: Global, row: &Row) -> Result<AccountRecord, Fault> {
        Ok(AccountRecord {
            row: Account {
                account: number_at(row, 0)?,
                home: number_at(row, 1)?,
                opening: cents_at(row, 2)?,
                floor: cents_at(row, 3)?,
            },
            balance: sum_at(row, 4)?,
            turns: count_at(row, 5)?,
        })
    }
}
