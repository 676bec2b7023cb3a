//! The two entries of a transfer, or of its correction, written as one change, so that the teller and the branch of both are read and
//! written once.

ghost use Rattle.std.specs.Prelude.{◌∷◌, []};
ghost use Rattle.sqlite.specs.Held.{state};
ghost use Rattle.bank_books.specs.Effects.{all_written};
ghost use Rattle.bank_books.specs.declared.row_write.RowWrite.TheVariants as write;
ghost use Rattle.book_kept.specs.Changes.{legs_sheets};
ghost use Rattle.book_kept.specs.Named.{AreLegs, AreOfLegs};
ghost use Rattle.book_kept.specs.Sheets.{sheets_of};
ghost use Rattle.sql_schema.specs.Steps.{Frame, Step};
ghost use Rattle.sql_writes.specs.Known.{AreKnownOf, FindsKnown, MovesKnown, TellsKnown};

use crate::book_writes::{EntryNames, known_account, put_entry, rows_of_entry};
use crate::known::{KnownRows, known_after_legs};
use crate::required::required;
use bank_books::{AccountRecord, Entry};
use book_kept::{EntryRows, LegRows, with_legs};
use money::Fault;
use sql_books::{add_entry, set_account};
use sqlite::{Alter, Transaction};

/// The rows whose numbers two entries move: those of the first, and the account of the second.
#[derive(Clone, Copy)]
struct LegNames {
    first: EntryNames,
    target: AccountRecord,
}

/// The accounts of two entries of one teller and one branch, and the teller and the branch, each as it is known, or read.
fn rows_of_legs<S: Alter>(
    tx: &mut Transaction<'_, S>,
    known: &KnownRows,
    first: &Entry,
    second: &Entry,
) -> Result<LegNames, Fault>
    ensures step { Step S.Store tx.old.conn tx.new.conn (λ s. s) result }
    ensures stated { FindsKnown known.now (state S.Store tx.old.conn.now) (state S.Store tx.new.conn.now) result (λ w rows. AreOfLegs (sheets_of w) first.now second.now rows.first.account rows.target rows.first.teller rows.first.branch) }
{
    let named = rows_of_entry(tx, known, first)?;
    let target = known_account(tx, known, second.account)?;
    Ok(LegNames {
        first: named,
        target,
    })
}

/// Writes the rows that two entries move, and both entries.
fn put_legs<S: Alter>(tx: &mut Transaction<'_, S>, rows: &LegRows) -> Result<(), Fault>
    ensures step { Step S.Store tx.old.conn tx.new.conn (legs_sheets rows.now) result }
{
    add_entry(tx, &rows.first)?;
    set_account(tx, &rows.source)?;
    let last = EntryRows {
        account: rows.target,
        teller: rows.teller,
        branch: rows.branch,
        entry: rows.second,
    };
    put_entry(tx, &last)
}

/// Writes two entries of one teller and one branch, at two accounts, and then knows the rows that both moved. One of them that is not
/// the next of its account or of the branch is a fault of the disk, and changes nothing.
pub(crate) fn write_legs<S: Alter>(
    tx: &mut Transaction<'_, S>,
    known: &mut KnownRows,
    first: &Entry,
    second: &Entry,
) -> Result<(), Fault>
    requires { AreLegs first.now second.now }
    ensures frame { Frame S.Store tx.old.conn tx.new.conn }
    ensures moves { MovesKnown known.old (state S.Store tx.old.conn.now) (state S.Store tx.new.conn.now) (all_written (write.Entry first.now ∷ write.Entry second.now ∷ [])) result }
    ensures known { TellsKnown known.old (state S.Store tx.old.conn.now) (state S.Store tx.new.conn.now) result (λ w. AreKnownOf (all_written (write.Entry first.now ∷ write.Entry second.now ∷ []) w) known.new) }
{
    let named = rows_of_legs(tx, known, first, second)?;
    let of = &named.first;
    let rows = required(with_legs(
        &of.account,
        &named.target,
        &of.teller,
        &of.branch,
        first,
        second,
    ))?;
    *known = known_after_legs(known, first, second, &rows);
    put_legs(tx, &rows)
}
