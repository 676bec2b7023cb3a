//! Moving cash between two places: the rows that it is judged on, its plan, and its reply.

ghost use Rattle.std.specs.Prelude.{◌≡◌, IfOk};
ghost use Rattle.serde_json.specs.View.{view};
ghost use Rattle.store_rows.specs.Status.{MayRead, Reads, ReadsRow, count_after, mark_of};
ghost use Rattle.op_prepare.specs.Judged.{DeniesOrCounts, IsJudged, LeavesPolicy};
ghost use Rattle.bank_meaning.specs.Meaning.{by_books};
ghost use Rattle.drawers.specs.MoveCash.{move_rows, teller_at};
ghost use Rattle.bank_meaning.specs.MoveCash.{move_meaning, moved_data, moved_text};

use crate::json_text::compact;
use crate::prepared::Prepared;
use bank_books::{Signature, TellerRecord};
use bank_terms::Rule;
use counter_ops::MoveCash;
use drawers::{MoveRows, Moved, plan_move};
use money::Fault;
use serde_json::{Value, json};
use std::alloc::{AllocError, Global};
use store_rows::BookReads;

/// The rows that a move of cash is judged on. The first rule against it is that of its plan.
pub(crate) fn load_move_rows<B: BookReads>(
    alloc: Global,
    store: &mut B,
    move_cash: &MoveCash,
) -> Result<MoveRows, Fault>
    ensures { ReadsRow (B.status store.old) (B.status store.new) result (λ w rows. rows ≡ move_rows w move_cash.now) }
{
    let branch = store.branch(alloc, move_cash.branch)?;
    let source = load_teller_at(alloc, store, move_cash.source)?;
    let target = load_teller_at(alloc, store, move_cash.target)?;
    Ok(MoveRows::of(source, target, branch, move_cash))
}

/// The teller at a place, unless that is the vault.
fn load_teller_at<B: BookReads>(
    alloc: Global,
    store: &mut B,
    place: u32,
) -> Result<Option<TellerRecord>, Fault>
    ensures read { MayRead (B.status store.old) (B.status store.new) result (λ w row. row ≡ teller_at w place) }
    ensures counted { (B.status store.new).fault_count ≡ count_after (mark_of result) (B.status store.old).fault_count }
{
    match place {
        0 => Ok(None),
        teller => store.teller(alloc, teller),
    }
}

/// What carries a move of cash out, or the first rule of the books against it.
pub(crate) fn prepare_move_cash<B: BookReads>(
    alloc: Global,
    store: &mut B,
    move_cash: &MoveCash,
    by: Signature,
) -> Result<Result<Prepared, Rule>, Fault>
    ensures judged { Reads (B.status store.old) (B.status store.new) result (IsJudged (λ w. by_books (move_meaning move_cash.now by w))) }
    ensures denied { DeniesOrCounts (B.status store.old) (B.status store.new) (λ w. (by_books (move_meaning move_cash.now by w)).first) result }
    ensures policy { LeavesPolicy result }
{
    let rows = load_move_rows(alloc, store, move_cash)?;
    match plan_move(alloc, &rows, move_cash, by)? {
        Ok(planned) => {
            let text = moved_text(alloc, &planned.left)?;
            Ok(Ok(Prepared {
                plan: planned.plan,
                text,
            }))
        }
        Err(rule) => Ok(Err(rule)),
    }
}

/// The bytes of the reply.
fn moved_text(alloc: Global, moved: &Moved) -> Result<Vec<u8>, AllocError>
    ensures { IfOk result (λ text. text.items ≡ moved_text moved.now) }
{
    let value = moved_value(alloc, moved)?;
    compact(alloc, &value)
}

fn moved_value(alloc: Global, moved: &Moved) -> Result<Value, AllocError>
    ensures { IfOk result (λ value. view value ≡ moved_data moved.now) }
{
    json!(in alloc; {"moved": moved.moved, "source": moved.source.get(), "target": moved.target.get()})
}
