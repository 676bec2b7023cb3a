//! Putting a drawer off: its plan and its reply. It is judged on the same rows as putting one on.

ghost use Rattle.std.specs.Prelude.{◌≡◌, IfOk};
ghost use Rattle.serde_json.specs.View.{view};
ghost use Rattle.store_rows.specs.Status.{Reads};
ghost use Rattle.op_prepare.specs.Judged.{DeniesOrCounts, IsJudged, LeavesPolicy};
ghost use Rattle.bank_meaning.specs.Meaning.{by_books};
ghost use Rattle.bank_meaning.specs.DrawerOff.{drawer_off_meaning, put_off_data, put_off_text};

use crate::drawer_on::load_drawer_rows;
use crate::json_text::compact;
use crate::prepared::Prepared;
use bank_books::Signature;
use bank_terms::Rule;
use counter_ops::DrawerOff;
use drawers::{PutOff, plan_drawer_off};
use money::Fault;
use serde_json::{Value, json};
use std::alloc::{AllocError, Global};
use store_rows::BookReads;

/// What carries a drawer that is put off out, or the first rule of the books against it.
pub(crate) fn prepare_drawer_off<B: BookReads>(
    alloc: Global,
    store: &mut B,
    form: &DrawerOff,
    by: Signature,
) -> Result<Result<Prepared, Rule>, Fault>
    ensures judged { Reads (B.status store.old) (B.status store.new) result (IsJudged (λ w. by_books (drawer_off_meaning form.now by w))) }
    ensures denied { DeniesOrCounts (B.status store.old) (B.status store.new) (λ w. (by_books (drawer_off_meaning form.now by w)).first) result }
    ensures policy { LeavesPolicy result }
{
    let rows = load_drawer_rows(alloc, store, form.teller, form.branch)?;
    match plan_drawer_off(alloc, &rows, form, by)? {
        Ok(planned) => {
            let text = put_off_text(alloc, &planned.left)?;
            Ok(Ok(Prepared {
                plan: planned.plan,
                text,
            }))
        }
        Err(rule) => Ok(Err(rule)),
    }
}

/// The bytes of the reply.
fn put_off_text(alloc: Global, put_off: &PutOff) -> Result<Vec<u8>, AllocError>
    ensures { IfOk result (λ text. text.items ≡ put_off_text put_off.now) }
{
    let value = put_off_value(alloc, put_off)?;
    compact(alloc, &value)
}

fn put_off_value(alloc: Global, put_off: &PutOff) -> Result<Value, AllocError>
    ensures { IfOk result (λ value. view value ≡ put_off_data put_off.now) }
{
    json!(in alloc; {"difference": put_off.difference.get(), "teller": put_off.teller, "vault": put_off.vault.get()})
}
