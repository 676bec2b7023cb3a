//! Who asks, by the fields of a message: the user of a badge, a session, a release and a slip.

ghost use Rattle.std.specs.Prelude.{◌≡◌, ◌≤◌, IfOk, IfSome, if◌then◌else◌, List, ℕ, Some, None, get_or};
ghost use Rattle.bank_terms.specs.Limits.{max_key};
ghost use Rattle.std.specs.Int.{is_in_range};
ghost use Rattle.std.specs.Str.Parse.{digits_value};
ghost use Rattle.http_heads.specs.Found.{IsFound};
ghost use Rattle.requests.specs.Fields.{is_badge, is_number, number_of, slip_for, user_of, who_by_badge, who_of, who_of_operation};

use crate::gate::Gate;
use bank_meaning::Who;
use bank_terms::{MAX_KEY, Procedure};
use http_heads::{Found, MessageFault};
use http_messages::Message;
use std::str;

/// The most bytes of a badge.
const MAX_BADGE_LEN: usize = 64;

/// Who asks, as the fields of a message say it, or the fault M6 where one of them is not of its form. The user is none
/// where there is no badge, or one that the `Gate` does not know, and the session is 0 where there is none.
/// Bank-Release is not read, and is no fault however it looks.
pub(crate) fn who_of<G: Gate>(message: &Message<'_>, gate: &G) -> Result<Who, MessageFault>
    ensures value { result ≡ who_of (G.users gate.now) message.now.head.fields }
    ensures small { IfOk result (λ who. who.slip ≤ max_key) }
{
    let user = user_of(message.field(b"Bank-Badge"), gate)?;
    let session = number_of(message.field(b"Bank-Session"))?;
    Ok(Who {
        user,
        session,
        release: 0,
        slip: 0,
    })
}

/// The same of who asks for an operation of this procedure, which may name a release, and a slip where it is one of those
/// that write: each is 0 where none is named.
pub(crate) fn who_of_operation<G: Gate>(
    message: &Message<'_>,
    gate: &G,
    procedure: Procedure,
) -> Result<Who, MessageFault>
    ensures value { result ≡ who_of_operation (G.users gate.now) procedure message.now.head.fields }
    ensures small { IfOk result (λ who. who.slip ≤ max_key) }
{
    let who = who_of(message, gate)?;
    let release = number_of(message.field(b"Bank-Release"))?;
    let slip = slip_for(message, procedure)?;
    Ok(Who {
        release,
        slip,
        ..who
    })
}

/// The number of the slip that a message bears, or 0 where it bears none or asks for what takes none: then the field is not
/// read, and is no fault however it looks.
fn slip_for(message: &Message<'_>, procedure: Procedure) -> Result<u32, MessageFault>
    ensures value { result ≡ slip_for procedure message.now.head.fields }
    ensures small { IfOk result (λ slip. slip ≤ max_key) }
{
    if procedure.takes_slip() {
        number_of(message.field(b"Bank-Slip"))
    } else {
        Ok(0)
    }
}

/// The same by the badge alone, of one who need not have a session: Bank-Session is not read, and is no fault however
/// it looks.
pub(crate) fn who_by_badge<G: Gate>(message: &Message<'_>, gate: &G) -> Result<Who, MessageFault>
    ensures value { result ≡ who_by_badge (G.users gate.now) message.now.head.fields }
    ensures small { IfOk result (λ who. who.slip ≤ max_key) }
{
    let user = user_of(message.field(b"Bank-Badge"), gate)?;
    Ok(Who {
        user,
        session: 0,
        release: 0,
        slip: 0,
    })
}

/// The user whom the `Gate` names for the badge, if there is one.
fn user_of<G: Gate>(badge: Found<'_>, gate: &G) -> Result<Option<u32>, MessageFault>
    ensures { (values : List (List ℕ)) → IsFound values badge.entry → result ≡ user_of (G.users gate.now) values }
{
    match badge {
        Found::Missing => Ok(None),
        Found::One(badge) if is_badge(badge) => Ok(gate.user_of(badge)),
        _ => Err(MessageFault::BadContent),
    }
}

/// The number of the session, of the release or of the slip that a message bears, or 0 where it bears none.
fn number_of(field: Found<'_>) -> Result<u32, MessageFault>
    ensures value { (values : List (List ℕ)) → IsFound values field.entry → result ≡ number_of values }
    ensures small { IfOk result (λ number. number ≤ max_key) }
{
    match field {
        Found::Missing => Ok(0),
        Found::One(value) => parse_number(value).ok_or(MessageFault::BadContent),
        Found::Several => Err(MessageFault::BadContent),
    }
}

/// Whether the value of a field is a badge: 1 to 64 bytes, each of them visible ASCII.
fn is_badge(value: &[u8]) -> bool
    ensures { result ≡ is_badge value.now }
{
    !value.is_empty()
        && value.len() <= MAX_BADGE_LEN
        && value.iter().all(|byte| byte.is_ascii_graphic())
}

/// The number of a session, of a release or of a slip that the value of a field states: digits that come to 999,999,999
/// at most, and the first is 1 to 9.
fn parse_number(value: &[u8]) -> Option<u32>
    ensures value { result ≡ (if is_number value.now then Some (digits_value 10 value.now) else None) }
    ensures small { IfSome result (λ number. number ≤ max_key) }
{
    if !starts_number(value) {
        return None;
    }
    let number: u32 = str::from_utf8(value).ok()?.parse().ok()?;
    if number <= MAX_KEY {
        Some(number)
    } else {
        None
    }
}

/// Whether the first byte is a digit and no zero.
fn starts_number(value: &[u8]) -> bool
    ensures { result ≡ is_in_range 49 57 (get_or value.now 0 0) }
{
    matches!(value.first(), Some(b'1'..=b'9'))
}
