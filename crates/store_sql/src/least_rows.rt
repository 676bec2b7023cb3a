//! The lower of two accounts, and the interval in which a member holds accounts.

ghost use Rattle.std.specs.Prelude.{◌≡◌, ◌&&◌, nat_le, ℕ};
ghost use Rattle.store_sql.specs.LeastShown.{is_account_kind, is_reached, lower};

use bank_books::AccountRecord;
use bank_policy::{Kind, Member};

/// Numbers from one to another, both with it, and none where the second is below the first.
#[derive(Clone, Copy)]
pub struct Interval {
    /// The least.
    pub low: u32,
    /// The greatest.
    pub high: u32,
}

fn is_account(kind: Kind) -> bool
    ensures { result ≡ is_account_kind kind }
{
    match kind {
        Kind::Account => true,
        _ => false,
    }
}

/// The numbers above another of the accounts that the member holds.
pub fn reach(member: &Member, after: u32) -> Interval
    ensures { (n : ℕ) → is_reached after member.now n ≡ (nat_le result.low n && nat_le n result.high) }
{
    if !is_account(member.kind) || after >= member.high {
        return Interval { low: 1, high: 0 };
    }
    let low = if after < member.low {
        member.low
    } else {
        after + 1
    };
    Interval {
        low,
        high: member.high,
    }
}

/// The account of the lower number, where there are two.
pub fn lower_of(a: Option<AccountRecord>, b: Option<AccountRecord>) -> Option<AccountRecord>
    ensures { result ≡ lower a b }
{
    match (a, b) {
        (None, other) => other,
        (Some(one), None) => Some(one),
        (Some(one), Some(other)) => {
            if one.row.account <= other.row.account {
                Some(one)
            } else {
                Some(other)
            }
        }
    }
}
