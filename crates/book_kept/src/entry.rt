//! What an entry changes in the numbers of its account, its teller and its branch.

ghost use Rattle.std.specs.Prelude.{◌≡◌, ◌+◌, ◌<◌, ◌^◌, IfSome, IsSome};
ghost use Rattle.money.specs.Range.{IsCents};
ghost use Rattle.book_laws.specs.Moves.{account_entered, branch_entered};
ghost use Rattle.book_kept.specs.After.{AreAfterEntry, AreEntered};
ghost use Rattle.book_kept.specs.Next.{IsHistoryDetermined, IsNextOf};
ghost use Rattle.book_kept.specs.Records.{entry_left, kept_teller_entered};

use crate::records::KeptTeller;
use bank_books::{AccountRecord, BranchRecord, Entry, EntryRecord};

/// The rows that an entry moves, with the numbers that they have after it.
#[derive(Clone, Copy, Debug, PartialEq, Eq)]
pub struct EntryRows {
    /// The account that it names.
    pub account: AccountRecord,
    /// The teller that it names.
    pub teller: KeptTeller,
    /// The branch whose history it stands in.
    pub branch: BranchRecord,
    /// The entry.
    pub entry: EntryRecord,
}

/// What an entry makes of its account, its teller and its branch, or none where it doesn't bear the next
/// turn of that account and the next number of that branch, or a sum is out of the range of an `i128`.
pub fn with_entry(
    account: &AccountRecord,
    teller: &KeptTeller,
    branch: &BranchRecord,
    entry: &Entry,
) -> Option<EntryRows>
    ensures kept { IfSome result (λ rows. AreAfterEntry entry.now account.now teller.now branch.now rows) }
    ensures moved { IfSome result (λ rows. AreEntered entry.now account.now teller.now branch.now rows) }
    ensures stated { IsNextOf entry.now account.now teller.now branch.now → IsSome result }
{
    let account = account_moved(account, entry)?;
    let teller = teller_moved(teller, entry)?;
    let branch = branch_moved(branch, entry)?;
    let entry = entry_left(&account, entry);
    Some(EntryRows {
        account,
        teller,
        branch,
        entry,
    })
}

fn entry_left(after: &AccountRecord, entry: &Entry) -> EntryRecord
    ensures { result ≡ entry_left entry.now after.now }
{
    EntryRecord {
        row: *entry,
        balance_after: after.balance,
    }
}

fn account_moved(account: &AccountRecord, entry: &Entry) -> Option<AccountRecord>
    ensures moved { IfSome result (λ a. a ≡ account_entered entry.now.delta account.now) }
    ensures next { IfSome result (λ a. entry.now.turn ≡ a.turns) }
    ensures stated { IsCents account.now.balance → entry.now.turn ≡ account.now.turns + 1 → IsSome result }
{
    let turn = entry.turn as u64;
    let mut moved = *account;
    moved.balance = account.balance.checked_add(entry.delta.get() as i128)?;
    moved.turns = account.turns.checked_add(1)?;
    if moved.turns == turn {
        Some(moved)
    } else {
        None
    }
}

fn teller_moved(teller: &KeptTeller, entry: &Entry) -> Option<KeptTeller>
    ensures moved { IfSome result (λ t. t ≡ kept_teller_entered entry.now.delta teller.now) }
    ensures stated { IsCents teller.now.balance → IsSome result }
{
    let mut moved = *teller;
    moved.balance = teller.balance.checked_add(entry.delta.get() as i128)?;
    Some(moved)
}

fn branch_moved(branch: &BranchRecord, entry: &Entry) -> Option<BranchRecord>
    ensures moved { IfSome result (λ b. b ≡ branch_entered entry.now.delta branch.now) }
    ensures next { IfSome result (λ b. (entry.now.number ≡ b.entries) × (entry.now.number < 2 ^ 32)) }
    ensures stated { IsHistoryDetermined branch.now → entry.now.number ≡ branch.now.entries + 1 → IsSome result }
{
    let number = entry.number as u64;
    let mut moved = *branch;
    moved.balance = branch.balance.checked_add(entry.delta.get() as i128)?;
    moved.history = branch.history.checked_add(entry.delta.get() as i128)?;
    moved.entries = branch.entries.checked_add(1)?;
    if moved.entries == number {
        Some(moved)
    } else {
        None
    }
}
