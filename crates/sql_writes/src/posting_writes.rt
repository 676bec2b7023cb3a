//! An entry with the line of its cash, written as one change, so that the rows which both move are read and written once.

ghost use Rattle.std.specs.Prelude.{◌∷◌, []};
ghost use Rattle.sqlite.specs.Held.{state};
ghost use Rattle.bank_books.specs.Effects.{all_written};
ghost use Rattle.bank_books.specs.declared.row_write.RowWrite.TheVariants as write;
ghost use Rattle.book_kept.specs.Changes.{posting_sheets};
ghost use Rattle.sql_schema.specs.Steps.{Frame, Step};
ghost use Rattle.sql_writes.specs.Known.{AreKnownOf, MovesKnown, TellsKnown};

use crate::book_writes::{put_entry, rows_of_entry};
use crate::known::{KnownRows, known_after};
use crate::required::required;
use bank_books::{CashLine, Entry};
use book_kept::{EntryRows, with_posting};
use money::Fault;
use sql_books::add_line;
use sqlite::{Alter, Transaction};

/// Writes the rows that an entry and its line move, the entry and the line.
fn put_posting<S: Alter>(
    tx: &mut Transaction<'_, S>,
    line: &CashLine,
    rows: &EntryRows,
) -> Result<(), Fault>
    ensures step { Step S.Store tx.old.conn tx.new.conn (posting_sheets line.now rows.now) result }
{
    put_entry(tx, rows)?;
    add_line(tx, line)
}

/// Writes an entry and the line of its cash, at the drawer of its teller, and then knows the rows that both moved. One of them that is
/// not the next of its account or its branch is a fault of the disk, and changes nothing.
pub(crate) fn write_posting<S: Alter>(
    tx: &mut Transaction<'_, S>,
    known: &mut KnownRows,
    entry: &Entry,
    line: &CashLine,
) -> Result<(), Fault>
    ensures frame { Frame S.Store tx.old.conn tx.new.conn }
    ensures moves { MovesKnown known.old (state S.Store tx.old.conn.now) (state S.Store tx.new.conn.now) (all_written (write.Entry entry.now ∷ write.Line line.now ∷ [])) result }
    ensures known { TellsKnown known.old (state S.Store tx.old.conn.now) (state S.Store tx.new.conn.now) result (λ w. AreKnownOf (all_written (write.Entry entry.now ∷ write.Line line.now ∷ []) w) known.new) }
{
    let named = rows_of_entry(tx, known, entry)?;
    let rows = required(with_posting(&named.account, &named.teller, &named.branch, entry, line))?;
    *known = known_after(known, entry, &rows);
    put_posting(tx, line, &rows)
}
