//! The members of a set in a body: each is an interval of keys of one kind, as three numbers.

ghost use Rattle.std.specs.Prelude.{◌≡◌, All, IfOk, IfSome, length, option_map};
ghost use Rattle.serde_json.specs.View.{items_view, view};
ghost use Rattle.policy_check.specs.Soundness.{IsMemberSound, IsNumber};
ghost use Rattle.bodies.specs.Member.{interval_of, key_of, kind_numbered, member_of, members_of};

use bank_policy::Member;
use bank_terms::{Kind, MAX_KEY};
use serde_json::Value;
use std::alloc::{AllocError, Global};

/// The kind of this number, 1 to 6.
fn kind_numbered(number: i64) -> Option<Kind>
    ensures { result ≡ kind_numbered number }
{
    match number {
        1 => Some(Kind::Account),
        2 => Some(Kind::Teller),
        3 => Some(Kind::Branch),
        4 => Some(Kind::History),
        5 => Some(Kind::Drawer),
        6 => Some(Kind::Vault),
        _ => None,
    }
}

/// The key that the value is, 1 to 999,999,999.
fn key_stated(value: &Value) -> Option<u32>
    ensures value { result ≡ key_of (view value.now) }
    ensures range { IfSome result IsNumber }
{
    let number = value.as_i64()?;
    if 1 <= number && number <= i64::from(MAX_KEY) {
        Some(number as u32)
    } else {
        None
    }
}

/// The interval that the values state, which are three.
#[tactic(auto, using(crate::proofs::Items::items_counted))]
fn interval_stated(items: &[Value]) -> Option<Member>
    ensures value { result ≡ interval_of (items_view items.now) }
    ensures range { IfSome result IsMemberSound }
{
    if items.len() != 3 {
        return None;
    }
    let kind = kind_numbered(items[0].as_i64()?)?;
    let low = key_stated(&items[1])?;
    let high = key_stated(&items[2])?;
    if low <= high {
        Some(Member { kind, low, high })
    } else {
        None
    }
}

/// The interval that the value states.
fn member_stated(value: &Value) -> Option<Member>
    ensures value { result ≡ member_of (view value.now) }
    ensures range { IfSome result IsMemberSound }
{
    interval_stated(value.as_array()?.as_slice())
}

/// The intervals that the values state, in order, or none where one of them states none. An error is
/// refused memory.
pub fn members_stated(alloc: Global, items: &[Value]) -> Result<Option<Vec<Member>>, AllocError>
    ensures value { IfOk result (λ stated. option_map (λ members. members.items) stated ≡ members_of (items_view items.now)) }
    ensures range { IfOk result (λ stated. IfSome stated (λ members. All IsMemberSound members.items)) }
    ensures length { IfOk result (λ stated. IfSome stated (λ members. length members.items ≡ length items.now)) }
{
    let mut found = Vec::new(alloc);
    for item in items {
        match member_stated(item) {
            Some(member) => found.push(member)?,
            None => return Ok(None),
        }
    }
    Ok(Some(found))
}
