//! The whole of a plan, written to the tables of a bank.

ghost use Rattle.std.specs.Prelude.{◌≡◌, ◌∷◌, [], IfSome, IsTrue};
ghost use Rattle.sqlite.specs.Held.{state};
ghost use Rattle.bank_books.specs.Effects.{all_written, applied, written};
ghost use Rattle.bank_books.specs.Version.{has_version_for};
ghost use Rattle.bank_books.specs.declared.row_write.RowWrite.TheVariants as write;
ghost use Rattle.book_kept.specs.Named.{AreLegs};
ghost use Rattle.sql_schema.specs.Steps.{Frame, Moves, WasOpen};
ghost use Rattle.sql_writes.specs.Known.{AreKnownOf, MovesKnown, TellsKnown};

use crate::book_writes::{
    write_account, write_day, write_entry, write_line, write_proof, write_release, write_slip,
    write_used,
};
use crate::known::KnownRows;
use crate::leg_writes::write_legs;
use crate::policy_writes::{write_policy, write_session};
use crate::posting_writes::write_posting;
use crate::version_writes::raise_version;
use bank_books::{CashLine, Entry, RowWrite, Slip, changes_policy};
use money::Fault;
use sql_schema::fault_of;
use sqlite::{Alter, Statement, Transaction};
use std::alloc::Global;

/// Writes one change.
fn write_row<S: Alter>(
    alloc: Global,
    tx: &mut Transaction<'_, S>,
    row: &RowWrite,
) -> Result<(), Fault>
    ensures frame { Frame S.Store tx.old.conn tx.new.conn }
    ensures moves { Moves (state S.Store tx.old.conn.now) (state S.Store tx.new.conn.now) (written row.now) result }
{
    match row {
        RowWrite::Account(account) => write_account(tx, account),
        RowWrite::Entry(entry) => write_entry(tx, entry),
        RowWrite::Line(line) => write_line(tx, line),
        RowWrite::Proof(proof) => write_proof(tx, proof),
        RowWrite::Release(release) => write_release(tx, release),
        RowWrite::Day(day) => write_day(tx, day),
        RowWrite::Used(key) => write_used(tx, key),
        RowWrite::Slip(slip) => write_slip(tx, &mut KnownRows::nothing(), slip),
        RowWrite::Session(session) => write_session(tx, session),
        RowWrite::Policy(change) => write_policy(alloc, tx, change),
    }
}

/// Writes these changes, one after another.
fn write_all<S: Alter>(
    alloc: Global,
    tx: &mut Transaction<'_, S>,
    plan: &[RowWrite],
) -> Result<(), Fault>
    ensures frame { Frame S.Store tx.old.conn tx.new.conn }
    ensures moves { Moves (state S.Store tx.old.conn.now) (state S.Store tx.new.conn.now) (all_written plan.now) result }
{
    for row in plan {
        write_row(alloc, tx, row)?;
    }
    Ok(())
}

/// The entry that begins these changes, with the line of its cash at the drawer of its teller, and the changes after
/// both. None where they begin otherwise.
fn posting_of(plan: &[RowWrite]) -> Option<(&Entry, &CashLine, &[RowWrite])>
    ensures begin { IfSome result (λ it. plan.now ≡ write.Entry it.0.now ∷ write.Line it.1.now ∷ it.2.now) }
    ensures drawer { IfSome result (λ it. it.1.now.place ≡ it.0.now.teller) }
    ensures branch { IfSome result (λ it. it.1.now.branch ≡ it.0.now.branch) }
{
    match plan {
        [RowWrite::Entry(entry), RowWrite::Line(line), rest @ ..]
            if line.place == entry.teller && line.branch == entry.branch => {
            Some((entry, line, rest))
        }
        _ => None,
    }
}

/// The two entries that begin these changes, of one teller and one branch and of two accounts, and the changes after
/// both. None where they begin otherwise.
fn legs_of(plan: &[RowWrite]) -> Option<(&Entry, &Entry, &[RowWrite])>
    ensures begin { IfSome result (λ it. plan.now ≡ write.Entry it.0.now ∷ write.Entry it.1.now ∷ it.2.now) }
    ensures legs { IfSome result (λ it. AreLegs it.0.now it.1.now) }
{
    match plan {
        [RowWrite::Entry(first), RowWrite::Entry(second), rest @ ..]
            if second.teller == first.teller
                && second.branch == first.branch
                && second.account != first.account => { Some((first, second, rest)) }
        _ => None,
    }
}

/// Finds a statement, which shows that the connection is open. Its plan is kept, and it is not run.
fn look<S: Alter>(tx: &mut Transaction<'_, S>) -> Result<Statement, Fault>
    ensures frame { Frame S.Store tx.old.conn tx.new.conn }
    ensures moves { Moves (state S.Store tx.old.conn.now) (state S.Store tx.new.conn.now) (λ w. w) result }
    ensures open { WasOpen (state S.Store tx.old.conn.now) (state S.Store tx.new.conn.now) result }
{
    match tx.prepare("SELECT policy FROM bank WHERE id = 1") {
        Ok(plan) => Ok(plan),
        Err(error) => Err(fault_of(error)),
    }
}

/// The slip that is all of these changes. None if they are others.
fn slip_of(plan: &[RowWrite]) -> Option<&Slip>
    ensures { IfSome result (λ it. plan.now ≡ write.Slip it.now ∷ []) }
{
    match plan {
        [RowWrite::Slip(slip)] => Some(slip),
        _ => None,
    }
}

/// Writes these changes, one after another. Of a slip alone it is known then how many its user has.
fn write_rest<S: Alter>(
    alloc: Global,
    tx: &mut Transaction<'_, S>,
    known: &mut KnownRows,
    plan: &[RowWrite],
) -> Result<(), Fault>
    ensures frame { Frame S.Store tx.old.conn tx.new.conn }
    ensures moves { MovesKnown known.old (state S.Store tx.old.conn.now) (state S.Store tx.new.conn.now) (all_written plan.now) result }
    ensures known { TellsKnown known.old (state S.Store tx.old.conn.now) (state S.Store tx.new.conn.now) result (λ w. AreKnownOf (all_written plan.now w) known.new) }
{
    match slip_of(plan) {
        Some(slip) => write_slip(tx, known, slip),
        None => {
            known.forget(plan);
            write_all(alloc, tx, plan)
        }
    }
}

/// Writes these changes. An entry and the line of its cash, or two entries of a transfer, where they begin them, are
/// written as one. Rows that are known are not read, and those that are known after all changes are left.
fn write_changes<S: Alter>(
    alloc: Global,
    tx: &mut Transaction<'_, S>,
    known: &mut KnownRows,
    plan: &[RowWrite],
) -> Result<(), Fault>
    ensures frame { Frame S.Store tx.old.conn tx.new.conn }
    ensures moves { MovesKnown known.old (state S.Store tx.old.conn.now) (state S.Store tx.new.conn.now) (all_written plan.now) result }
    ensures known { TellsKnown known.old (state S.Store tx.old.conn.now) (state S.Store tx.new.conn.now) result (λ w. AreKnownOf (all_written plan.now w) known.new) }
{
    match posting_of(plan) {
        Some((entry, line, rest)) => {
            write_posting(tx, known, entry, line)?;
            write_rest(alloc, tx, known, rest)
        }
        None => match legs_of(plan) {
            Some((first, second, rest)) => {
                write_legs(tx, known, first, second)?;
                write_rest(alloc, tx, known, rest)
            }
            None => write_rest(alloc, tx, known, plan),
        },
    }
}

/// Writes the whole plan; at a fault the transaction has to be rolled back. A plan that changes the policy raises its version by one,
/// and finds no room for it after the greatest: a fault of size. Rows of accounts, tellers and branches that are known are not read;
/// where it goes through, those that are left are known of the World after it.
pub fn write_plan<S: Alter>(
    alloc: Global,
    tx: &mut Transaction<'_, S>,
    known: &mut KnownRows,
    plan: &[RowWrite],
) -> Result<(), Fault>
    ensures frame { Frame S.Store tx.old.conn tx.new.conn }
    ensures moves { MovesKnown known.old (state S.Store tx.old.conn.now) (state S.Store tx.new.conn.now) (applied plan.now) result }
    ensures known { TellsKnown known.old (state S.Store tx.old.conn.now) (state S.Store tx.new.conn.now) result (λ w. AreKnownOf (applied plan.now w) known.new) }
    ensures room { TellsKnown known.old (state S.Store tx.old.conn.now) (state S.Store tx.new.conn.now) result (λ w. IsTrue (has_version_for plan.now w.version)) }
    ensures open { WasOpen (state S.Store tx.old.conn.now) (state S.Store tx.new.conn.now) result }
{
    look(tx)?;
    write_changes(alloc, tx, known, plan)?;
    if changes_policy(plan) {
        raise_version(tx)
    } else {
        Ok(())
    }
}
