//! A statement that adds or sets a row of a table, by a law of its text.

ghost use Rattle.std.specs.Prelude.{◌≡◌};
ghost use Rattle.sqlite.specs.Values.{bound};
ghost use Rattle.keyed_rows.specs.Ordered.{add_row};
ghost use Rattle.book_kept.specs.Sheets.{set_row};
ghost use Rattle.sql_schema.specs.Steps.{Step};
ghost use Rattle.sql_releases.specs.Tables.{Adds, Sets};

use money::Fault;
use sql_schema::{TableRow, run};
use sqlite::types::ValueRef;
use sqlite::{Alter, Transaction};

/// A table whose rows are one of the lists of a bank.
pub trait Listed: TableRow {
    ghost use Rattle.std.specs.Prelude.{List};
    ghost use Rattle.book_kept.specs.Sheets.{Sheets};

    ghost list: { Sheets → List Self };

    ghost with_list: { List Self → Sheets → Sheets };
}

/// Adds a row by a statement that does so.
pub fn add_by<R: Listed, S: Alter>(
    tx: &mut Transaction<'_, S>,
    text: &str,
    params: &[ValueRef<'_>],
    row: &R,
) -> Result<(), Fault>
    requires law { Adds text.now R.shown R.fits (λ x s. R.with_list (add_row R.key x (R.list s)) s) }
    requires given { bound params.now ≡ R.shown row.now }
    requires fits { R.fits row.now }
    ensures step { Step S.Store tx.old.conn tx.new.conn (λ s. R.with_list (add_row R.key row.now (R.list s)) s) result }
{
    run(tx, text, params)?;
    Ok(())
}

/// Writes a row in place of the one of its key, by a statement that does so.
pub fn set_by<R: Listed, S: Alter>(
    tx: &mut Transaction<'_, S>,
    text: &str,
    params: &[ValueRef<'_>],
    row: &R,
) -> Result<(), Fault>
    requires law { Sets text.now R.shown R.fits (λ x s. R.with_list (set_row R.key x (R.list s)) s) }
    requires given { bound params.now ≡ R.shown row.now }
    requires fits { R.fits row.now }
    ensures step { Step S.Store tx.old.conn tx.new.conn (λ s. R.with_list (set_row R.key row.now (R.list s)) s) result }
{
    run(tx, text, params)?;
    Ok(())
}
