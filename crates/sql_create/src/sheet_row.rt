//! How rows are written to the tables of a new bank, whatever table they are of.

ghost use Rattle.book_kept.specs.Sheets.{Sheets};
ghost use Rattle.sql_schema.specs.Steps.{Step};
ghost use Rattle.sql_create.specs.Filled.{with_all};

use money::Fault;
use sqlite::{Alter, Transaction};

/// A row that is written to the tables, with the numbers that are kept beside it.
pub(crate) trait SheetRow {
    /// The rows that the tables hold with it.
    ghost with_it: { Self → Sheets → Sheets };

    /// Writes it inside a transaction. A row of its key that is there already is a fault of the disk.
    fn add<S: Alter>(&self, tx: &mut Transaction<'_, S>) -> Result<(), Fault>
        ensures step { Step S.Store tx.old.conn tx.new.conn (with_it self.now) result };
}

/// Writes these rows, one after another.
pub(crate) fn add_all<S: Alter, R: SheetRow>(
    tx: &mut Transaction<'_, S>,
    rows: &[R],
) -> Result<(), Fault>
    ensures step { Step S.Store tx.old.conn tx.new.conn (with_all R.with_it rows.now) result }
{
    for row in rows {
        row.add(tx)?;
    }
    Ok(())
}
