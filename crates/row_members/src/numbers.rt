//! Numbers of a row read as members, each within its range.

ghost use Rattle.std.specs.Prelude.{◌≡◌, ℕ, ℤ, pos, Some, IfSome};
ghost use Rattle.money.specs.Range.{IsDelta};
ghost use Rattle.row_members.specs.Ranges.{IsCash, IsFloor, IsKey, IsKeyOrZero, IsWithin};

use bank_terms::{MAX_KEY, MIN_FLOOR};
use money::{Cents, Delta};

/// The number that stands in a place, or none where it is not from `low` to `high`.
pub fn number(place: i64, low: u32, high: u32) -> Option<u32>
    ensures some { IfSome result (λ n. IsWithin low high n × (pos n ≡ place)) }
    ensures only { (n : ℕ) → IsWithin low high n → pos n ≡ place → result ≡ Some n }
{
    if i64::from(low) <= place && place <= i64::from(high) {
        Some(place as u32)
    } else {
        None
    }
}

/// The key that stands in a place, 1 to 999,999,999.
pub fn key(place: i64) -> Option<u32>
    ensures some { IfSome result (λ n. IsKey n × (pos n ≡ place)) }
    ensures only { (n : ℕ) → IsKey n → pos n ≡ place → result ≡ Some n }
{
    number(place, 1, MAX_KEY)
}

/// The key that stands in a place, or 0 for none.
pub fn key_or_zero(place: i64) -> Option<u32>
    ensures some { IfSome result (λ n. IsKeyOrZero n × (pos n ≡ place)) }
    ensures only { (n : ℕ) → IsKeyOrZero n → pos n ≡ place → result ≡ Some n }
{
    number(place, 0, MAX_KEY)
}

/// What one entry adds, as it stands in a place, -999,999 to 999,999.
pub fn delta(place: i64) -> Option<Delta>
    ensures some { IfSome result (λ z. IsDelta z × (z ≡ place)) }
    ensures only { (z : ℤ) → IsDelta z → z ≡ place → result ≡ Some z }
{
    Delta::new(place)
}

/// A cash that stands in a place, in cents, 0 to 999,999,999,999.
pub fn cash(place: i64) -> Option<Cents>
    ensures some { IfSome result (λ z. IsCash z × (z ≡ place)) }
    ensures only { (z : ℤ) → IsCash z → z ≡ place → result ≡ Some z }
{
    if place < 0 {
        return None;
    }
    Cents::new(place)
}

/// A floor that stands in a place, in cents, -999,999,999 to 0.
pub fn floor(place: i64) -> Option<i32>
    ensures some { IfSome result (λ z. IsFloor z × (z ≡ place)) }
    ensures only { (z : ℤ) → IsFloor z → z ≡ place → result ≡ Some z }
{
    if i64::from(MIN_FLOOR) <= place && place <= 0 {
        Some(place as i32)
    } else {
        None
    }
}
