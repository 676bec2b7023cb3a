//! Putting a drawer on: the rows that it is judged on, its plan, and its reply.

ghost use Rattle.std.specs.Prelude.{◌≡◌, IfOk};
ghost use Rattle.serde_json.specs.View.{view};
ghost use Rattle.store_rows.specs.Status.{Reads, ReadsRow};
ghost use Rattle.op_prepare.specs.Judged.{DeniesOrCounts, IsJudged, LeavesPolicy};
ghost use Rattle.bank_meaning.specs.Meaning.{by_books};
ghost use Rattle.drawers.specs.DrawerRows.{drawer_rows};
ghost use Rattle.bank_meaning.specs.DrawerOn.{drawer_on_meaning, put_on_data, put_on_text};

use crate::json_text::compact;
use crate::prepared::Prepared;
use bank_books::Signature;
use bank_terms::Rule;
use counter_ops::DrawerOn;
use drawers::{DrawerRows, PutOn, plan_drawer_on};
use money::Fault;
use serde_json::{Value, json};
use std::alloc::{AllocError, Global};
use store_rows::BookReads;

/// The rows that a drawer of a teller is judged on, where it is put on or off. The first rule against that is that of its
/// plan.
pub(crate) fn load_drawer_rows<B: BookReads>(
    alloc: Global,
    store: &mut B,
    teller: u32,
    branch: u32,
) -> Result<DrawerRows, Fault>
    ensures { ReadsRow (B.status store.old) (B.status store.new) result (λ w rows. rows ≡ drawer_rows w teller branch) }
{
    let teller = store.teller(alloc, teller)?;
    let branch = store.branch(alloc, branch)?;
    Ok(DrawerRows::of(teller, branch))
}

/// What carries a drawer that is put on out, or the first rule of the books against it.
pub(crate) fn prepare_drawer_on<B: BookReads>(
    alloc: Global,
    store: &mut B,
    form: &DrawerOn,
    by: Signature,
) -> Result<Result<Prepared, Rule>, Fault>
    ensures judged { Reads (B.status store.old) (B.status store.new) result (IsJudged (λ w. by_books (drawer_on_meaning form.now by w))) }
    ensures denied { DeniesOrCounts (B.status store.old) (B.status store.new) (λ w. (by_books (drawer_on_meaning form.now by w)).first) result }
    ensures policy { LeavesPolicy result }
{
    let rows = load_drawer_rows(alloc, store, form.teller, form.branch)?;
    match plan_drawer_on(alloc, &rows, form, by)? {
        Ok(planned) => {
            let text = put_on_text(alloc, &planned.left)?;
            Ok(Ok(Prepared {
                plan: planned.plan,
                text,
            }))
        }
        Err(rule) => Ok(Err(rule)),
    }
}

/// The bytes of the reply.
fn put_on_text(alloc: Global, put_on: &PutOn) -> Result<Vec<u8>, AllocError>
    ensures { IfOk result (λ text. text.items ≡ put_on_text put_on.now) }
{
    let value = put_on_value(alloc, put_on)?;
    compact(alloc, &value)
}

fn put_on_value(alloc: Global, put_on: &PutOn) -> Result<Value, AllocError>
    ensures { IfOk result (λ value. view value ≡ put_on_data put_on.now) }
{
    json!(in alloc; {"cash": put_on.cash.get(), "teller": put_on.teller, "vault": put_on.vault.get()})
}
