//! The body of the definition of a set: its key, and 1 to 32 members.

ghost use Rattle.std.specs.Prelude.{◌≡◌, ◌≤◌, IfOk, IfSome, IsTrue, length};
ghost use Rattle.serde_json.specs.View.{items_view, view};
ghost use Rattle.policy_check.specs.Soundness.{IsSetSound};
ghost use Rattle.bodies.specs.ItemSet.{has_set_length, item_set_of};

use crate::commands::member::members_stated;
use crate::members::{is_object_of, key};
use bank_policy::ItemSet;
use serde_json::Value;
use std::alloc::{AllocError, Global};

/// Whether there are as many as a set may have.
#[tactic(auto, using(crate::proofs::Items::items_counted))]
fn has_set_length(items: &[Value]) -> bool
    ensures value { result ≡ has_set_length (items_view items.now) }
    ensures range { IsTrue result → (1 ≤ length items.now) × (length items.now ≤ 32) }
{
    1 <= items.len() && items.len() <= 32
}

/// The set that the value states, to be defined. An error is refused memory.
pub fn item_set_stated(alloc: Global, body: &Value) -> Result<Option<ItemSet>, AllocError>
    ensures value { IfOk result (λ stated. stated ≡ item_set_of (view body.now)) }
    ensures range { IfOk result (λ stated. IfSome stated IsSetSound) }
{
    if !is_object_of(body, 2) {
        return Ok(None);
    }
    let Some(set) = key(body, "set") else {
        return Ok(None);
    };
    let Some(list) = body.get("members").and_then(Value::as_array) else {
        return Ok(None);
    };
    let items = list.as_slice();
    if !has_set_length(items) {
        return Ok(None);
    }
    match members_stated(alloc, items)? {
        Some(members) => Ok(Some(ItemSet::new(set, members))),
        None => Ok(None),
    }
}
