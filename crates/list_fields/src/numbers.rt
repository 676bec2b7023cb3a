//! Numbers and amounts of money that a field states in decimal.

ghost use Rattle.std.specs.Prelude.{◌≡◌, ◌==◌, ◌<◌, ◌||◌, ◌∷◌, [], slice_index, length, IsTrue};
ghost use Rattle.std.specs.Int.{is_in_range};
ghost use Rattle.std.specs.Str.{bytes_eq};
ghost use Rattle.list_fields.specs.Numbers.{amount_of, is_number, number_in, number_up_to};

use money::{Cents, MAX_CENTS};
use std::str;

/// The number from `low` to `high` that a field states in decimal: digits without a leading zero, of which 0 alone is a
/// number, too.
pub fn number_in(low: u32, high: u32, field: &[u8]) -> Option<u32>
    ensures { result ≡ number_in low high field.now }
{
    let number = number_up_to(high as u64, field)?;
    if low as u64 <= number {
        Some(number as u32)
    } else {
        None
    }
}

/// The amount in cents, from -999,999,999,999 to 999,999,999,999, that a field states in decimal: digits without a leading
/// zero, and a minus before them where it is below 0.
pub fn amount_of(field: &[u8]) -> Option<Cents>
    ensures { result ≡ amount_of field.now }
{
    if has_minus(field) {
        let number = number_up_to(MAX_CENTS as u64, &field[1..])?;
        if number == 0 {
            None
        } else {
            Cents::new(-(number as i64))
        }
    } else {
        let number = number_up_to(MAX_CENTS as u64, field)?;
        Cents::new(number as i64)
    }
}

/// Whether a minus stands first.
fn has_minus(field: &[u8]) -> bool
    ensures value { result ≡ (slice_index field.now 0 == 45) }
    ensures some { IsTrue result → 0 < length field.now }
{
    matches!(field, [b'-', ..])
}

/// The number up to `most` that a field states in decimal, with no leading zero.
pub fn number_up_to(most: u64, field: &[u8]) -> Option<u64>
    ensures { result ≡ number_up_to most field.now }
{
    if !starts_number(field) {
        return None;
    }
    let number: u64 = str::from_utf8(field).ok()?.parse().ok()?;
    if number <= most { Some(number) } else { None }
}

/// Whether a number may start so: with a digit that is no zero, or it is zero alone.
fn starts_number(field: &[u8]) -> bool
    ensures { result ≡ (is_in_range 49 57 (slice_index field.now 0) || bytes_eq field.now (48 ∷ [])) }
{
    matches!(field, [b'1'..=b'9', ..] | b"0")
}
