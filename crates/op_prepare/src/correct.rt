//! Correcting an entry: the rows that it is judged on, with the other leg of a transfer, its plan, and its reply.

ghost use Rattle.std.specs.Prelude.{◌≡◌, IfOk, option_and_then};
ghost use Rattle.store_rows.specs.Status.{MayRead, Reads, ReadsRow, count_after, mark_of};
ghost use Rattle.op_prepare.specs.Judged.{DeniesOrCounts, IsJudged, LeavesPolicy};
ghost use Rattle.bank_meaning.specs.Meaning.{by_books};
ghost use Rattle.postings.specs.Correct.{correct_rows, other_account, partner_of};
ghost use Rattle.bank_meaning.specs.Correct.{correct_meaning, corrected_text};

use crate::post::posted_text;
use crate::prepared::Prepared;
use crate::transfer::transferred_text;
use bank_books::{AccountRecord, Entry, Signature};
use bank_terms::Rule;
use counter_ops::Correct;
use money::Fault;
use postings::{CorrectRows, Corrected, plan_correct};
use std::alloc::{AllocError, Global};
use store_rows::BookReads;

/// The rows that a correction is judged on. The first rule against it is that of its plan.
pub(crate) fn load_correct_rows<B: BookReads>(
    alloc: Global,
    store: &mut B,
    correct: &Correct,
) -> Result<CorrectRows, Fault>
    ensures { ReadsRow (B.status store.old) (B.status store.new) result (λ w rows. rows ≡ correct_rows w correct.now) }
{
    let account = store.account(alloc, correct.account)?;
    let other = load_other(alloc, store, correct)?;
    let teller = store.teller(alloc, correct.teller)?;
    let branch = store.branch(alloc, correct.branch)?;
    let entry = store.entry(alloc, correct.branch, correct.entry)?;
    let partner = load_partner(alloc, store, &entry)?;
    let is_undone = store.undone(alloc, correct.branch, correct.entry)?;
    Ok(CorrectRows::of(account, other, teller, branch, entry, partner, is_undone))
}

/// The other leg of an entry, where it names one.
fn load_partner<B: BookReads>(
    alloc: Global,
    store: &mut B,
    entry: &Option<Entry>,
) -> Result<Option<Entry>, Fault>
    ensures read { MayRead (B.status store.old) (B.status store.new) result (λ w partner. partner ≡ option_and_then (partner_of w) entry.now) }
    ensures counted { (B.status store.new).fault_count ≡ count_after (mark_of result) (B.status store.old).fault_count }
{
    match entry {
        Some(entry) if entry.partner != 0 => store.entry(alloc, entry.branch, entry.partner),
        _ => Ok(None),
    }
}

/// The other account that a correction names, of a transfer.
fn load_other<B: BookReads>(
    alloc: Global,
    store: &mut B,
    correct: &Correct,
) -> Result<Option<AccountRecord>, Fault>
    ensures read { MayRead (B.status store.old) (B.status store.new) result (λ w other. other ≡ other_account w correct.now) }
    ensures counted { (B.status store.new).fault_count ≡ count_after (mark_of result) (B.status store.old).fault_count }
{
    match correct.other {
        0 => Ok(None),
        other => store.account(alloc, other),
    }
}

/// What carries a correction out, or the first rule of the books against it.
pub(crate) fn prepare_correct<B: BookReads>(
    alloc: Global,
    store: &mut B,
    correct: &Correct,
    by: Signature,
) -> Result<Result<Prepared, Rule>, Fault>
    ensures judged { Reads (B.status store.old) (B.status store.new) result (IsJudged (λ w. by_books (correct_meaning correct.now by w))) }
    ensures denied { DeniesOrCounts (B.status store.old) (B.status store.new) (λ w. (by_books (correct_meaning correct.now by w)).first) result }
    ensures policy { LeavesPolicy result }
{
    let rows = load_correct_rows(alloc, store, correct)?;
    match plan_correct(alloc, &rows, correct, by)? {
        Ok(planned) => {
            let text = corrected_text(alloc, &planned.left)?;
            Ok(Ok(Prepared {
                plan: planned.plan,
                text,
            }))
        }
        Err(rule) => Ok(Err(rule)),
    }
}

/// The bytes of the reply: that of a post or of a transfer.
fn corrected_text(alloc: Global, corrected: &Corrected) -> Result<Vec<u8>, AllocError>
    ensures { IfOk result (λ text. text.items ≡ corrected_text corrected.now) }
{
    match corrected {
        Corrected::OfPost(posted) => posted_text(alloc, posted),
        Corrected::OfTransfer(transferred) => transferred_text(alloc, transferred),
    }
}
