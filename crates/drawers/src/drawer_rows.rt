//! What putting a drawer on or off is judged on: the teller, the cash book and the vault.

ghost use Rattle.std.specs.Prelude.{◌≡◌, option_map};
ghost use Rattle.rule_tests.specs.BranchParts.{cash_book_of};
ghost use Rattle.drawers.specs.DrawerRows.{is_unknown};

use bank_books::{BranchRecord, TellerRecord};
use rule_tests::CashBook;

/// The rows that a drawer which is put on or off is judged on, as far as they are there.
#[derive(Clone, Copy, Debug, PartialEq, Eq)]
pub struct DrawerRows {
    /// The teller, with its drawer.
    pub teller: Option<TellerRecord>,
    /// The cash book of the branch.
    pub cash_book: Option<CashBook>,
    /// The cash of its vault in cents.
    pub vault: Option<i128>,
}

impl DrawerRows {
    /// Of the rows as a store answers them.
    pub fn of(teller: Option<TellerRecord>, branch: Option<BranchRecord>) -> DrawerRows
        ensures { result ≡ record { teller = teller; cash_book = option_map cash_book_of branch; vault = option_map (λ b. b.vault) branch } }
    {
        let (cash_book, vault) = match branch {
            Some(branch) => (Some(CashBook::of(&branch)), Some(branch.vault)),
            None => (None, None),
        };
        DrawerRows {
            teller,
            cash_book,
            vault,
        }
    }

    /// Whether the teller or the branch is not there.
    pub(crate) fn is_unknown(&self) -> bool
        ensures { result ≡ is_unknown self.now }
    {
        self.teller.is_none() || self.cash_book.is_none() || self.vault.is_none()
    }
}
