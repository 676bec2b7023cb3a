//! Giving a release: the rows that it is judged on, the rules against it, its plan, and its reply.

ghost use Rattle.std.specs.Prelude.{◌≡◌, ◌+◌, ◌<◌, false, is_none, nat_le, IfOk, IfSome, IsNone};
ghost use Rattle.std.specs.Option.{option_map_or};
ghost use Rattle.bank_terms.specs.Limits.{max_releases};
ghost use Rattle.serde_json.specs.View.{view};
ghost use Rattle.store_rows.specs.Status.{Reads, ReadsRow};
ghost use Rattle.op_prepare.specs.Judged.{DeniesOrCounts, IsJudged, LeavesPolicy};
ghost use Rattle.bank_meaning.specs.Meaning.{by_books};
ghost use Rattle.bank_meaning.specs.Release.{first_against_release, given_release, release_data, release_meaning, release_rows, release_text};

use crate::json_text::compact;
use crate::prepared::Prepared;
use bank_books::{RowWrite, Signature};
use bank_meaning::ReleaseRows;
use bank_terms::{MAX_RELEASES, Rule};
use counter_ops::Release;
use money::Fault;
use rule_tests::first_denial;
use serde_json::{Value, json};
use std::alloc::{AllocError, Global};
use store_rows::{BookReads, PolicyReads};

/// The rows that giving a release is judged on: how many the user has for whom it is, and the day of the branch.
pub(crate) fn load_release_rows<S: PolicyReads + BookReads>(
    alloc: Global,
    store: &mut S,
    form: &Release,
) -> Result<ReleaseRows, Fault>
    ensures { ReadsRow (S.status store.old) (S.status store.new) result (λ w rows. rows ≡ release_rows w form.now) }
{
    let beneficiary = store.user(alloc, form.beneficiary)?;
    let branch = store.branch(alloc, form.operation.branch())?;
    Ok(ReleaseRows::of(beneficiary, branch))
}

/// The first rule of the books against giving a release, or none.
pub(crate) fn rule_against_release(
    rows: &ReleaseRows,
    form: &Release,
    by: Signature,
) -> Option<Rule>
    ensures first { result ≡ first_against_release rows.now form.now by }
    ensures user { IsNone result → is_none rows.now.given ≡ false }
    ensures branch { IsNone result → is_none rows.now.today ≡ false }
    ensures room { IsNone result → IfSome rows.now.given (λ given. given < max_releases) }
{
    first_denial(&[
        (Rule::Unknown, rows.given.is_none() || rows.today.is_none()),
        (Rule::SecondPerson, form.beneficiary == by.user),
        (Rule::Full, has_all_releases(rows.given)),
    ])
}

/// Whether a user who was given this number of releases can be given no other.
fn has_all_releases(given: Option<u64>) -> bool
    ensures { result ≡ option_map_or (λ n. nat_le max_releases n) given false }
{
    match given {
        Some(given) => MAX_RELEASES as u64 <= given,
        None => false,
    }
}

/// What gives a release, or the first rule of the books against it.
pub(crate) fn prepare_release<S: PolicyReads + BookReads>(
    alloc: Global,
    store: &mut S,
    form: &Release,
    by: Signature,
) -> Result<Result<Prepared, Rule>, Fault>
    ensures judged { Reads (S.status store.old) (S.status store.new) result (IsJudged (λ w. by_books (release_meaning form.now by w))) }
    ensures denied { DeniesOrCounts (S.status store.old) (S.status store.new) (λ w. (by_books (release_meaning form.now by w)).first) result }
    ensures policy { LeavesPolicy result }
{
    let rows = load_release_rows(alloc, store, form)?;
    if let Some(rule) = rule_against_release(&rows, form, by) {
        return Ok(Err(rule));
    }
    let (Some(given), Some(today)) = (rows.given, rows.today) else {
        unreachable!();
    };
    let row = given_release(given, today, form, by);
    let plan = vec![in alloc; RowWrite::Release(row)]?;
    let text = release_text(alloc, row.user, row.number)?;
    Ok(Ok(Prepared { plan, text }))
}

/// The row of it, for a user who was given this number before, on this day of the branch.
fn given_release(given: u64, today: u32, form: &Release, by: Signature) -> bank_books::Release
    requires { given < max_releases }
    ensures { result ≡ given_release given today form.now by }
{
    bank_books::Release {
        user: form.beneficiary,
        number: (given + 1) as u32,
        giver: by.user,
        branch: form.operation.branch(),
        day: today,
        operation: form.operation.to_row(),
        used: false,
    }
}

/// The bytes of the reply.
fn release_text(alloc: Global, beneficiary: u32, number: u32) -> Result<Vec<u8>, AllocError>
    ensures { IfOk result (λ text. text.items ≡ release_text beneficiary number) }
{
    let value = release_value(alloc, beneficiary, number)?;
    compact(alloc, &value)
}

fn release_value(alloc: Global, beneficiary: u32, number: u32) -> Result<Value, AllocError>
    ensures { IfOk result (λ value. view value ≡ release_data beneficiary number) }
{
    json!(in alloc; {"beneficiary": beneficiary, "release": number})
}
