//! Rows of tellers, of users and of members of sets as a store keeps them, and how many slips a user has.

use bank_books::{Teller, TellerRecord};
use bank_policy::{Member, User};

/// A teller with the numbers that are kept beside it, all of them whole numbers.
#[derive(Clone, Copy, Debug, PartialEq, Eq)]
pub struct KeptTeller {
    /// The row.
    pub row: Teller,
    /// Its balance in cents: its opening plus the deltas of the entries that name it.
    pub balance: i128,
    /// The cash of its drawer in cents: the sum of its lines.
    pub cash: i128,
    /// The user who holds its drawer, 1 to 9,999; 0 for nobody.
    pub holder: u32,
}

impl KeptTeller {
    ghost use Rattle.std.specs.Prelude.{◌≡◌, ◌≢◌, Some};
    ghost use Rattle.book_kept.specs.Records.{kept_teller};

    /// What is kept of a teller.
    pub fn of(teller: &TellerRecord) -> KeptTeller
        ensures { result ≡ kept_teller teller.now }
    {
        KeptTeller {
            row: teller.row,
            balance: teller.balance,
            cash: teller.cash,
            holder: teller.holder.unwrap_or(0),
        }
    }

    /// The teller of which it is kept. Nobody is user 0.
    pub fn to_record(&self) -> TellerRecord
        ensures { (t : TellerRecord) → self.now ≡ kept_teller t → t.holder ≢ Some 0 → result ≡ t }
    {
        TellerRecord {
            row: self.row,
            balance: self.balance,
            cash: self.cash,
            holder: if self.holder == 0 {
                None
            } else {
                Some(self.holder)
            },
        }
    }
}

/// A user with the number that is kept beside them.
#[derive(Debug, Drop)]
pub struct KeptUser {
    /// The row.
    pub row: User,
    /// How many releases they were given.
    pub releases: u64,
}

/// A member of a set, at its place.
#[derive(Clone, Copy, Debug, PartialEq, Eq)]
pub struct MemberRow {
    /// The set, 1 to 999,999,999.
    pub set: u32,
    /// Its place among the members of the set, from 1 to 32.
    pub place: u32,
    /// The interval.
    pub member: Member,
}

/// How many slips a user has.
#[derive(Clone, Copy, Debug, PartialEq, Eq)]
pub struct SlipCount {
    /// The user, 1 to 9,999.
    pub user: u32,
    /// How many slips bear that user.
    pub slips: u64,
}
