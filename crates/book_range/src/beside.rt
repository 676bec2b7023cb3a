//! The rows that kept numbers are of, compared with the rows of the World one by one.

ghost use Rattle.std.specs.Prelude.{◌≡◌, ◌↔◌, IsTrue, map};

use bank_books::{
    Account, AccountRecord, Branch, BranchRecord, Entry, EntryRecord, Teller, TellerRecord,
};

/// What is kept beside a row.
pub(crate) trait Beside<T> {
    ghost own_row: { Self → T };

    /// Whether it is kept beside this row.
    fn is_of(&self, row: &T) -> bool
        ensures { IsTrue result ↔ (own_row self.now ≡ row.now) };
}

/// Whether what is kept stands beside these rows, each once and in their order.
pub(crate) fn stand_beside<T, K: Beside<T>>(kept: &[K], rows: &[T]) -> bool
    ensures { IsTrue result ↔ (map K.own_row kept.now ≡ rows.now) }
{
    if kept.len() != rows.len() {
        return false;
    }
    for index in 0..rows.len() {
        if !kept[index].is_of(&rows[index]) {
            return false;
        }
    }
    true
}

impl Beside<Branch> for BranchRecord {
    ghost own_row = { λ b. b.row };

    fn is_of(&self, row: &Branch) -> bool {
        self.row == *row
    }
}

impl Beside<Teller> for TellerRecord {
    ghost own_row = { λ t. t.row };

    fn is_of(&self, row: &Teller) -> bool {
        self.row == *row
    }
}

impl Beside<Account> for AccountRecord {
    ghost own_row = { λ a. a.row };

    fn is_of(&self, row: &Account) -> bool {
        self.row == *row
    }
}

impl Beside<Entry> for EntryRecord {
    ghost own_row = { λ e. e.row };

    fn is_of(&self, row: &Entry) -> bool {
        self.row == *row
    }
}
