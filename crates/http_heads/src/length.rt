//! The value of a Content-Length field as a number, cut just above the longest body.

ghost use Rattle.std.specs.Prelude.{◌≡◌, ◌+◌, min, Some, None, if◌then◌else◌};
ghost use Rattle.std.specs.Str.Parse.{digits_value};
ghost use Rattle.http_heads.specs.Framing.{is_digits, max_body_len};

use crate::head::MAX_BODY_LEN;

/// The number that one or more digits state, or the least that is too long for a body, whichever is less.
pub(crate) fn parse_length(value: &[u8]) -> Option<usize>
    ensures { result ≡ (if is_digits value.now then Some (min (digits_value 10 value.now) (max_body_len + 1)) else None) }
{
    if value.is_empty() {
        return None;
    }
    let mut len = 0;
    for digit in value {
        if !digit.is_ascii_digit() {
            return None;
        }
        len = (len * 10 + usize::from(*digit - b'0')).min(MAX_BODY_LEN + 1);
    }
    Some(len)
}
