//! An entry and its cash line taken together, so that the rows which both move are made once.

ghost use Rattle.std.specs.Prelude.{IfSome, IsSome};
ghost use Rattle.book_kept.specs.After.{AreAfterPosting};
ghost use Rattle.book_kept.specs.Next.{IsNextPosting};

use crate::entry::{EntryRows, with_entry};
use crate::lines::with_drawer_line;
use crate::records::KeptTeller;
use bank_books::{AccountRecord, BranchRecord, CashLine, Entry};

/// What an entry and then its cash line make of the account, the teller and the branch, so that each is
/// written once; or none where the line isn't at the drawer of the entry's teller and in its branch, or
/// one of the two is refused alone.
pub fn with_posting(
    account: &AccountRecord,
    teller: &KeptTeller,
    branch: &BranchRecord,
    entry: &Entry,
    line: &CashLine,
) -> Option<EntryRows>
    ensures kept { IfSome result (λ rows. AreAfterPosting entry.now line.now account.now teller.now branch.now rows) }
    ensures stated { IsNextPosting entry.now line.now account.now teller.now branch.now → IsSome result }
{
    if line.place != entry.teller || line.branch != entry.branch {
        return None;
    }
    let mut rows = with_entry(account, teller, branch, entry)?;
    let moved = with_drawer_line(&rows.teller, &rows.branch, line)?;
    rows.teller = moved.teller;
    rows.branch = moved.branch;
    Some(rows)
}
