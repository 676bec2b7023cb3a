//! What a new account changes: its home has one more account, and it begins with its opening balance and no turns.

ghost use Rattle.std.specs.Prelude.{◌≡◌, ◌+◌, ◌<◌, ◌^◌, IfSome, IsSome};
ghost use Rattle.book_laws.specs.Moves.{branch_homed};
ghost use Rattle.book_kept.specs.After.{AreAfterAccount};
ghost use Rattle.book_kept.specs.Records.{account_begun};

use bank_books::{Account, AccountRecord, BranchRecord};

/// The rows that a new account moves, with the numbers that they have after it.
#[derive(Clone, Copy, Debug, PartialEq, Eq)]
pub struct AccountRows {
    /// The branch that is its home.
    pub home: BranchRecord,
    /// The account.
    pub account: AccountRecord,
}

/// What a new account makes of its home, and the numbers that it begins with, or none where the accounts
/// of that branch are as many as a `u64` can hold.
pub fn with_account(home: &BranchRecord, account: &Account) -> Option<AccountRows>
    ensures kept { IfSome result (λ rows. AreAfterAccount account.now home.now rows) }
    ensures begun { IfSome result (λ rows. rows.account ≡ account_begun account.now) }
    ensures stated { home.now.accounts + 1 < 2 ^ 64 → IsSome result }
{
    let home = home_moved(home)?;
    let account = account_begun(account);
    Some(AccountRows { home, account })
}

fn home_moved(home: &BranchRecord) -> Option<BranchRecord>
    ensures moved { IfSome result (λ b. b ≡ branch_homed home.now) }
    ensures stated { home.now.accounts + 1 < 2 ^ 64 → IsSome result }
{
    let mut moved = *home;
    moved.accounts = home.accounts.checked_add(1)?;
    Some(moved)
}

fn account_begun(account: &Account) -> AccountRecord
    ensures { result ≡ account_begun account.now }
{
    AccountRecord {
        row: *account,
        balance: account.opening.get() as i128,
        turns: 0,
    }
}
