//! Transferring money between two accounts: the rows that it is judged on, its plan, and its reply.

ghost use Rattle.std.specs.Prelude.{◌≡◌, IfOk};
ghost use Rattle.serde_json.specs.View.{view};
ghost use Rattle.store_rows.specs.Status.{Reads, ReadsRow};
ghost use Rattle.op_prepare.specs.Judged.{DeniesOrCounts, IsJudged, LeavesPolicy};
ghost use Rattle.bank_meaning.specs.Meaning.{by_books};
ghost use Rattle.postings.specs.Transfer.{transfer_rows};
ghost use Rattle.bank_meaning.specs.Transfer.{transfer_meaning, transferred_data, transferred_text};
ghost use Rattle.counter_ops.specs.Transfer.{IsTransfer};

use crate::json_text::compact;
use crate::prepared::Prepared;
use bank_books::Signature;
use bank_terms::Rule;
use counter_ops::Transfer;
use money::Fault;
use postings::{TransferRows, Transferred, plan_transfer};
use serde_json::{Value, json};
use std::alloc::{AllocError, Global};
use store_rows::BookReads;

/// The rows that a transfer is judged on. The first rule against it is that of its plan.
pub(crate) fn load_transfer_rows<B: BookReads>(
    alloc: Global,
    store: &mut B,
    transfer: &Transfer,
) -> Result<TransferRows, Fault>
    ensures { ReadsRow (B.status store.old) (B.status store.new) result (λ w rows. rows ≡ transfer_rows w transfer.now) }
{
    let source = store.account(alloc, transfer.source)?;
    let target = store.account(alloc, transfer.target)?;
    let teller = store.teller(alloc, transfer.teller)?;
    let branch = store.branch(alloc, transfer.branch)?;
    Ok(TransferRows::of(source, target, teller, branch))
}

/// What carries a transfer out, or the first rule of the books against it.
pub(crate) fn prepare_transfer<B: BookReads>(
    alloc: Global,
    store: &mut B,
    transfer: &Transfer,
    by: Signature,
) -> Result<Result<Prepared, Rule>, Fault>
    requires { IsTransfer transfer.now }
    ensures judged { Reads (B.status store.old) (B.status store.new) result (IsJudged (λ w. by_books (transfer_meaning transfer.now by w))) }
    ensures denied { DeniesOrCounts (B.status store.old) (B.status store.new) (λ w. (by_books (transfer_meaning transfer.now by w)).first) result }
    ensures policy { LeavesPolicy result }
{
    let rows = load_transfer_rows(alloc, store, transfer)?;
    match plan_transfer(alloc, &rows, transfer, by)? {
        Ok(planned) => {
            let text = transferred_text(alloc, &planned.left)?;
            Ok(Ok(Prepared {
                plan: planned.plan,
                text,
            }))
        }
        Err(rule) => Ok(Err(rule)),
    }
}

/// The bytes of the reply.
pub(crate) fn transferred_text(
    alloc: Global,
    transferred: &Transferred,
) -> Result<Vec<u8>, AllocError>
    ensures { IfOk result (λ text. text.items ≡ transferred_text transferred.now) }
{
    let value = transferred_value(alloc, transferred)?;
    compact(alloc, &value)
}

fn transferred_value(alloc: Global, transferred: &Transferred) -> Result<Value, AllocError>
    ensures { IfOk result (λ value. view value ≡ transferred_data transferred.now) }
{
    json!(in alloc; {"branch": transferred.branch, "first": transferred.first, "second": transferred.second, "source": transferred.source.get(), "target": transferred.target.get()})
}
