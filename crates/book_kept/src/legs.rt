//! Two entries of one teller and one branch, taken together, so that the rows which both move are made once.

ghost use Rattle.std.specs.Prelude.{IfSome, IsSome};
ghost use Rattle.book_kept.specs.After.{AreAfterLegs};
ghost use Rattle.book_kept.specs.Next.{AreNextLegs};

use crate::entry::with_entry;
use crate::records::KeptTeller;
use bank_books::{AccountRecord, BranchRecord, Entry, EntryRecord};

/// The rows that two entries of one teller and one branch move, with the numbers that they have after both.
#[derive(Clone, Copy, Debug, PartialEq, Eq)]
pub struct LegRows {
    /// The account that the first names.
    pub source: AccountRecord,
    /// The account that the second names.
    pub target: AccountRecord,
    /// The teller that both name.
    pub teller: KeptTeller,
    /// The branch in whose history both stand.
    pub branch: BranchRecord,
    /// The first entry.
    pub first: EntryRecord,
    /// The second entry.
    pub second: EntryRecord,
}

/// What two entries, one after the other, make of their two accounts, and of the teller and the branch that
/// both name, so that each is written once; or none where one of the two is refused alone.
pub fn with_legs(
    source: &AccountRecord,
    target: &AccountRecord,
    teller: &KeptTeller,
    branch: &BranchRecord,
    first: &Entry,
    second: &Entry,
) -> Option<LegRows>
    ensures kept { IfSome result (λ rows. AreAfterLegs first.now second.now source.now target.now teller.now branch.now rows) }
    ensures stated { AreNextLegs first.now second.now source.now target.now teller.now branch.now → IsSome result }
{
    let left = with_entry(source, teller, branch, first)?;
    let after = with_entry(target, &left.teller, &left.branch, second)?;
    Some(LegRows {
        source: left.account,
        target: after.account,
        teller: after.teller,
        branch: after.branch,
        first: left.entry,
        second: after.entry,
    })
}
