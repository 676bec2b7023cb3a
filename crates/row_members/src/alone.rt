//! The row of a form whose only member is a key: a balance, a proof or the end of a day.

ghost use Rattle.std.specs.Prelude.{◌≡◌, IfSome};
ghost use Rattle.row_members.specs.Ranges.{IsKey};
ghost use Rattle.row_members.specs.Places.{StandsIn, IsOnlyIn, key_numbers, places};

use crate::numbers::key;
use crate::places::{in_places, one};

/// The key of a form with one member, in the places of a row.
pub fn places_of_key(key: u32) -> [i64; 8]
    ensures { result ≡ places (key_numbers key) }
{
    in_places(&[i64::from(key)])
}

/// The key that stands alone in the places.
pub fn key_alone(members: &[i64; 8]) -> Option<u32>
    ensures some { IfSome result (StandsIn IsKey key_numbers members.now) }
    ensures only { IsOnlyIn IsKey key_numbers members.now result }
{
    let alone = one(members)?;
    key(alone)
}
