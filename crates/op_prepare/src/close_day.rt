//! Closing the day of a branch: the rows that it is judged on, its plan, and its reply.

ghost use Rattle.std.specs.Prelude.{◌≡◌, IfOk};
ghost use Rattle.serde_json.specs.View.{view};
ghost use Rattle.store_rows.specs.Status.{Reads, ReadsRow};
ghost use Rattle.op_prepare.specs.Judged.{DeniesOrCounts, IsJudged, LeavesPolicy};
ghost use Rattle.bank_meaning.specs.Meaning.{by_books};
ghost use Rattle.drawers.specs.CloseDay.{closing_rows};
ghost use Rattle.bank_meaning.specs.CloseDay.{close_day_meaning, closed_data, closed_text};

use crate::json_text::compact;
use crate::prepared::Prepared;
use bank_terms::Rule;
use counter_ops::CloseDay;
use drawers::{Closed, ClosingRows, plan_close_day};
use money::Fault;
use serde_json::{Value, json};
use std::alloc::{AllocError, Global};
use store_rows::BookReads;

/// The rows that the closing of a day is judged on. The first rule against it is that of its plan.
pub(crate) fn load_closing_rows<B: BookReads>(
    alloc: Global,
    store: &mut B,
    form: &CloseDay,
) -> Result<ClosingRows, Fault>
    ensures { ReadsRow (B.status store.old) (B.status store.new) result (λ w rows. rows ≡ closing_rows w form.now) }
{
    let branch = store.branch(alloc, form.branch)?;
    let roster = store.roster(alloc, form.branch)?;
    Ok(ClosingRows::of(branch, &roster))
}

/// What carries the closing of a day out, or the first rule of the books against it.
pub(crate) fn prepare_close_day<B: BookReads>(
    alloc: Global,
    store: &mut B,
    form: &CloseDay,
) -> Result<Result<Prepared, Rule>, Fault>
    ensures judged { Reads (B.status store.old) (B.status store.new) result (IsJudged (λ w. by_books (close_day_meaning form.now w))) }
    ensures denied { DeniesOrCounts (B.status store.old) (B.status store.new) (λ w. (by_books (close_day_meaning form.now w)).first) result }
    ensures policy { LeavesPolicy result }
{
    let rows = load_closing_rows(alloc, store, form)?;
    match plan_close_day(alloc, &rows, form)? {
        Ok(planned) => {
            let text = closed_text(alloc, &planned.left)?;
            Ok(Ok(Prepared {
                plan: planned.plan,
                text,
            }))
        }
        Err(rule) => Ok(Err(rule)),
    }
}

/// The bytes of the reply.
fn closed_text(alloc: Global, closed: &Closed) -> Result<Vec<u8>, AllocError>
    ensures { IfOk result (λ text. text.items ≡ closed_text closed.now) }
{
    let value = closed_value(alloc, closed)?;
    compact(alloc, &value)
}

fn closed_value(alloc: Global, closed: &Closed) -> Result<Value, AllocError>
    ensures { IfOk result (λ value. view value ≡ closed_data closed.now) }
{
    json!(in alloc; {"balance": closed.balance.get(), "cash": closed.cash.get(), "closed": closed.closed, "entries": closed.entries})
}
