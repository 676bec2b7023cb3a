//! The question for the proof of a branch: the branch that it is judged on, and the tellers that it lists.

ghost use Rattle.std.specs.Prelude.{◌≡◌};
ghost use Rattle.reports.specs.Listing.{proof_of};
ghost use Rattle.store_rows.specs.Status.{Reads};
ghost use Rattle.bank_meaning.specs.Meaning.{by_books};
ghost use Rattle.bank_meaning.specs.Proof.{first_against_proof, proof_meaning};
ghost use Rattle.op_prepare.specs.Judged.{DeniesOrCounts, IsCountedFor};

use bank_books::BranchRecord;
use bank_terms::Rule;
use counter_ops::Proof;
use money::Fault;
use reports::{AfterTeller, BranchNumbers, Contents, Listing, counted};
use std::alloc::Global;
use store_rows::{BookReads, ReportReads};

/// The first rule of the books against the question for the proof of a branch, or none. The branch's
/// row is all that it is judged on.
pub(crate) fn rule_against_proof(row: Option<BranchRecord>) -> Option<Rule>
    ensures { result ≡ first_against_proof row }
{
    match row {
        Some(_) => None,
        None => Some(Rule::Unknown),
    }
}

/// The proof of a branch.
fn proof_listing(branch: &BranchRecord) -> Listing
    ensures { result ≡ proof_of branch.now }
{
    Listing::Tellers(AfterTeller {
        branch: BranchNumbers::of(branch),
        after: 0,
        tellers: 0,
    })
}

/// What answers the question for the proof of a branch, counted, or the first rule of the books
/// against it.
pub(crate) fn prepare_proof<S: BookReads + ReportReads>(
    alloc: Global,
    store: &mut S,
    form: &Proof,
) -> Result<Result<Contents, Rule>, Fault>
    ensures counted { Reads (S.status store.old) (S.status store.new) result (IsCountedFor (λ w. by_books (proof_meaning form.now w))) }
    ensures denied { DeniesOrCounts (S.status store.old) (S.status store.new) (λ w. (by_books (proof_meaning form.now w)).first) result }
{
    let Some(branch) = store.branch(alloc, form.branch)? else {
        return Ok(Err(Rule::Unknown));
    };
    let contents = counted(alloc, store, proof_listing(&branch), u32::MAX)?;
    Ok(Ok(contents))
}
