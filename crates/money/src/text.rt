//! Amounts as decimal text in fixed room, and written to a stream right in a width.

ghost use Rattle.std.specs.Prelude.{◌≡◌, replicate};
ghost use Rattle.money.specs.Counted.{Sends};
ghost use Rattle.money.specs.Text.{cents_text, right};

use crate::cents::Cents;
use crate::sending::{WriteStopped, write_whole};
use crate::tallied::Tallied;
use arrayvec::ArrayVec;
use itoa::Buffer;
use std::io::Write;

/// Room for the text of any amount: a sign, the 39 digits of the greatest `u128`, a point and two
/// digits.
pub const CENTS_ROOM: usize = 43;

/// The text of an amount in cents, in its fixed room.
pub type CentsText = ArrayVec<u8, CENTS_ROOM>;

/// The spaces that one write sends at most.
const SPACES: [u8; 32] = [b' '; 32];

/// The text of an amount in cents, as `-12.34`, as long as it is. Every `i128` has one. It takes no
/// memory.
pub fn cents_text(cents: i128) -> CentsText
    ensures { result.items ≡ cents_text cents }
{
    let magnitude = cents.unsigned_abs();
    let mut text = ArrayVec::new();
    if cents < 0 {
        text.push(b'-');
    }
    let mut buffer = Buffer::new();
    let units = buffer.format(magnitude / 100).as_bytes();
    text.try_extend_from_slice(units).unwrap();
    text.push(b'.');
    text.push(b'0' + (magnitude / 10 % 10) as u8);
    text.push(b'0' + (magnitude % 10) as u8);
    text
}

/// Writes the amount as `-12.34`, right in the width by spaces, and whole where it is longer. It
/// takes no memory. It ends as `write_whole` does.
pub fn write_cents<W: Write>(
    writer: &mut Tallied<W>,
    cents: Cents,
    width: usize,
) -> Result<(), WriteStopped>
    ensures { Sends W.contents writer.old writer.new (right width (cents_text cents)) result }
{
    let text = text_of(cents);
    write_spaces(writer, width.saturating_sub(text.len()))?;
    write_whole(writer, text.as_slice())
}

/// The text of an amount that lies in range.
fn text_of(cents: Cents) -> CentsText
    ensures { result.items ≡ cents_text cents }
{
    cents_text(i128::from(cents.get()))
}

/// Writes this many spaces. It ends as `write_whole` does.
fn write_spaces<W: Write>(writer: &mut Tallied<W>, count: usize) -> Result<(), WriteStopped>
    ensures { Sends W.contents writer.old writer.new (replicate count 32) result }
{
    let mut left = count;
    while left > 0 {
        let piece = left.min(SPACES.len());
        write_whole(writer, &SPACES[..piece])?;
        left -= piece;
    }
    Ok(())
}
