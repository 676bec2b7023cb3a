//! Names, badges, and yes or no, as a field states them.

ghost use Rattle.std.specs.Prelude.{◌≡◌, Some, None, if◌then◌else◌, option_map};
ghost use Rattle.bank_terms.specs.Procedure.{procedure_named};
ghost use Rattle.list_fields.specs.Names.{flag_of, is_badge, is_name, kind_named};

use bank_terms::{Kind, Procedure};
use std::str;

/// The most bytes of a badge.
const MAX_BADGE_LEN: usize = 64;

/// The most bytes of a user's name.
const MAX_NAME_LEN: usize = 20;

/// The procedure that a field names, or none where no procedure has this name.
pub fn procedure_named(field: &[u8]) -> Option<Procedure>
    ensures { result ≡ procedure_named field.now }
{
    Procedure::named(str::from_utf8(field).ok()?)
}

/// The kind of items that a field names, or none where no kind has this name.
pub fn kind_named(field: &[u8]) -> Option<Kind>
    ensures { result ≡ kind_named field.now }
{
    kind_of(str::from_utf8(field).ok()?)
}

/// The kind of items of this name.
fn kind_of(name: &str) -> Option<Kind>
    ensures { result ≡ kind_named name.now }
{
    match name {
        "account" => Some(Kind::Account),
        "teller" => Some(Kind::Teller),
        "branch" => Some(Kind::Branch),
        "history" => Some(Kind::History),
        "drawer" => Some(Kind::Drawer),
        "vault" => Some(Kind::Vault),
        _ => None,
    }
}

/// What a field says of yes or no: 1 is yes and 0 is no, and any other field is none.
pub fn flag_of(field: &[u8]) -> Option<bool>
    ensures { result ≡ flag_of field.now }
{
    match field {
        b"0" => Some(false),
        b"1" => Some(true),
        _ => None,
    }
}

/// The user's name that a field states, or none where it may not be one.
pub fn name_of(field: &[u8]) -> Option<&str>
    ensures { option_map (λ name. name.now) result ≡ (if is_name field.now then Some field.now else None) }
{
    if is_name(field) {
        str::from_utf8(field).ok()
    } else {
        None
    }
}

/// Whether a text may be a user's name: 1 to 20 bytes of printable ASCII, from the space to the tilde.
pub fn is_name(field: &[u8]) -> bool
    ensures { result ≡ is_name field.now }
{
    !field.is_empty()
        && field.len() <= MAX_NAME_LEN
        && field.iter().all(|byte| (b' '..=b'~').contains(byte))
}

/// Whether a text may be a badge: 1 to 64 bytes, each of them visible ASCII.
pub fn is_badge(field: &[u8]) -> bool
    ensures { result ≡ is_badge field.now }
{
    !field.is_empty()
        && field.len() <= MAX_BADGE_LEN
        && field.iter().all(|byte| byte.is_ascii_graphic())
}
