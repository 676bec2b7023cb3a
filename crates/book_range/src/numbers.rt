//! Rows that bear numbers within a group: entries, cash lines, proofs and parts of sums.

ghost use Rattle.std.specs.Prelude.{◌≡◌, ◌↔◌, ◌≤◌, ℕ, IsTrue};
ghost use Rattle.book_range.specs.Numbers.{BearNumbers};

use bank_books::{CashLine, Entry, Proof};
use book_sums::Part;

/// A row that bears a number within its group.
pub trait Numbered {
    ghost number: { Self → ℕ };

    /// The number.
    fn number(&self) -> u32
        ensures { result ≡ number self.now };
}

impl Numbered for Entry {
    ghost number = { λ e. e.number };

    fn number(&self) -> u32 {
        self.number
    }
}

impl Numbered for CashLine {
    ghost number = { λ l. l.number };

    fn number(&self) -> u32 {
        self.number
    }
}

impl Numbered for Proof {
    ghost number = { λ p. p.day };

    fn number(&self) -> u32 {
        self.day
    }
}

impl Numbered for Part {
    ghost number = { λ p. p.number };

    fn number(&self) -> u32 {
        self.number
    }
}

/// Whether each of the rows bears a number from 1 to how many they are.
pub fn bear_numbers<T: Numbered>(rows: &[T]) -> bool
    ensures { IsTrue result ↔ BearNumbers T.number rows.now }
{
    let count = rows.len() as u64;
    rows.iter().all(|row| bears_number_up_to(row, count))
}

fn bears_number_up_to<T: Numbered>(row: &T, count: u64) -> bool
    ensures { IsTrue result ↔ ((1 ≤ T.number row.now) × (T.number row.now ≤ count)) }
{
    let number = row.number();
    1 <= number && number as u64 <= count
}
