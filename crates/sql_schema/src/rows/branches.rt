//! Branches, read from the rows of their table with the sums and the counts that are kept beside each.

ghost use Rattle.std.specs.Prelude.{◌≡◌, pos, IfErr, IfOk};
ghost use Rattle.sqlite.specs.declared.types.Value.TheVariants.{Int};
ghost use Rattle.sqlite_value.specs.Order.{column};
ghost use Rattle.sql_schema.specs.Heads.{IsReadableHead, branch_head};
ghost use Rattle.sql_schema.specs.Readable.{IsUnread};
ghost use Rattle.sql_schema.specs.ReadBack.{columns_from};

use crate::cells::{cents_at, count_at, number_at};
use crate::table_row::TableRow;
use crate::values::sum_at;
use bank_books::{Branch, BranchRecord};
use money::Fault;
use sqlite::Row;
use std::alloc::Global;

/// The text of a query for branches that ends as given. Its columns stand in the order in which a row is read.
#[macro_export]
macro_rules! select_branches {
    ($rest:literal) => {
        concat!(
            "SELECT branch, opening, cash, day, balance, vault, entries, lines, accounts, history, drawers, cash_entries, differences FROM branches ",
            $rest
        )
    };
}

impl TableRow for BranchRecord {
    ghost use Rattle.book_kept.specs.Sheets.{branch_no};
    ghost use Rattle.sql_schema.specs.Cells.{AnyRow, branch_cells};
    ghost use Rattle.sql_schema.specs.Held.Sheet.{branches as in_branches};
    ghost use Rattle.sql_schema.specs.HeldRows.{all_of_it};
    ghost use Rattle.sql_schema.specs.Readable.{IsReadableBranch};
    ghost use Rattle.sql_schema.specs.Shown.{shown_branch};
    ghost use Rattle.sql_schema.specs.ReadBack.{stored_by_rowid};

    ghost sheet = { in_branches };

    ghost cells = { branch_cells };

    ghost key = { branch_no };

    ghost shows = { all_of_it };

    ghost stated = { stored_by_rowid 12 };

    ghost shown = { shown_branch };

    ghost fits = { AnyRow };

    ghost readable = { IsReadableBranch };

    fn read(_alloc: Global, row: &Row) -> Result<BranchRecord, Fault> {
        Ok(BranchRecord {
            row: branch_at(row)?,
            balance: sum_at(row, 4)?,
            vault: sum_at(row, 5)?,
            entries: count_at(row, 6)?,
            lines: count_at(row, 7)?,
            accounts: count_at(row, 8)?,
            history: sum_at(row, 9)?,
            drawers: sum_at(row, 10)?,
            cash_entries: sum_at(row, 11)?,
            differences: sum_at(row, 12)?,
        })
    }
}

/// The branch in the first columns of a row.
fn branch_at(row: &Row) -> Result<Branch, Fault>
    ensures branch { IfOk result (λ b. column row.now 0 ≡ Int (pos b.branch)) }
    ensures opening { IfOk result (λ b. column row.now 1 ≡ Int b.opening) }
    ensures cash { IfOk result (λ b. column row.now 2 ≡ Int b.cash) }
    ensures day { IfOk result (λ b. column row.now 3 ≡ Int (pos b.day)) }
    ensures unread { IfErr result (IsUnread branch_head IsReadableHead (columns_from 0 4 row.now)) }
{
    Ok(Branch {
        branch: number_at(row, 0)?,
        opening: cents_at(row, 1)?,
        cash: cents_at(row, 2)?,
        day: number_at(row, 3)?,
    })
}
