//! What the rules of the books on opening an account read: the account of its number, and how many its home has.

ghost use Rattle.std.specs.Prelude.{◌≡◌, option_map};

use bank_books::{AccountRecord, BranchRecord};

/// The rows that opening an account is judged on, as far as they are there.
#[derive(Clone, Copy, Debug, PartialEq, Eq)]
pub struct OpeningRows {
    /// The account of its number.
    pub account: Option<AccountRecord>,
    /// How many accounts have its branch as their home; none where the branch isn't there.
    pub homed: Option<u64>,
}

impl OpeningRows {
    /// Of the rows as a store answers them.
    pub fn of(account: Option<AccountRecord>, branch: Option<BranchRecord>) -> OpeningRows
        ensures { result ≡ record { account = account; homed = option_map (λ b. b.accounts) branch } }
    {
        OpeningRows {
            account,
            homed: branch.map(|branch| branch.accounts),
        }
    }
}
