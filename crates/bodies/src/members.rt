//! The members of a body's object: how many there are, and those that are whole numbers in a range.

ghost use Rattle.std.specs.Prelude.{◌≡◌, ◌≤◌, ◌≤ℤ◌, IfSome};
ghost use Rattle.serde_json.specs.View.{view};
ghost use Rattle.money.specs.Range.{IsDelta};
ghost use Rattle.bodies.specs.Body.{has_members, number_member, natural_member, key_member, delta_member};
ghost use Rattle.row_members.specs.Ranges.{IsKey};
ghost use Rattle.bank_terms.specs.Limits.{max_moment};

use bank_terms::{MAX_KEY, MAX_MOMENT};
use money::{Delta, MAX_DELTA};
use serde_json::Value;

/// Whether the value is an object with this many members.
pub fn is_object_of(body: &Value, count: usize) -> bool
    ensures { result ≡ has_members count (view body.now) }
{
    match body.as_object() {
        Some(members) => members.len() == count,
        None => false,
    }
}

/// The whole number that the member of this name is, or none where it is no whole number from
/// `low` to `high`.
pub fn member(body: &Value, name: &str, low: i64, high: i64) -> Option<i64>
    ensures value { result ≡ number_member name.now low high (view body.now) }
    ensures range { IfSome result (λ z. (low ≤ℤ z) × (z ≤ℤ high)) }
{
    let number = body.get(name).and_then(Value::as_i64)?;
    if low <= number && number <= high {
        Some(number)
    } else {
        None
    }
}

/// The same for a number that is not below zero.
pub fn natural(body: &Value, name: &str, low: u32, high: u32) -> Option<u32>
    ensures value { result ≡ natural_member name.now low high (view body.now) }
    ensures range { IfSome result (λ n. (low ≤ n) × (n ≤ high)) }
{
    let number = member(body, name, i64::from(low), i64::from(high))?;
    Some(number as u32)
}

/// The moment that the member of this name is, 0 to 99,999,999,999.
pub fn moment(body: &Value, name: &str) -> Option<u64>
    ensures value { result ≡ natural_member name.now 0 max_moment (view body.now) }
    ensures range { IfSome result (λ n. n ≤ max_moment) }
{
    let number = member(body, name, 0, MAX_MOMENT as i64)?;
    Some(number as u64)
}

/// The key that the member of this name is, 1 to 999,999,999.
pub fn key(body: &Value, name: &str) -> Option<u32>
    ensures value { result ≡ key_member name.now (view body.now) }
    ensures range { IfSome result IsKey }
{
    natural(body, name, 1, MAX_KEY)
}

/// What one entry adds, as the member of this name, -999,999 to 999,999.
pub fn delta(body: &Value, name: &str) -> Option<Delta>
    ensures value { result ≡ delta_member name.now (view body.now) }
    ensures range { IfSome result IsDelta }
{
    Delta::new(member(body, name, -MAX_DELTA, MAX_DELTA)?)
}
