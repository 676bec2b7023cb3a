//! The body of a release: the user who is authorized, and an operation of one of five procedures.

ghost use Rattle.std.specs.Prelude.{◌≡◌, IfSome};
ghost use Rattle.serde_json.specs.View.{view};
ghost use Rattle.bodies.specs.Release.{releasable_of, release_of};
ghost use Rattle.counter_ops.specs.Releasable.{IsReleasable};
ghost use Rattle.counter_ops.specs.Release.{IsRelease};

use crate::members::{is_object_of, natural};
use crate::operations::correct::correct_stated;
use crate::operations::drawer_on::drawer_on_stated;
use crate::operations::move_cash::move_cash_stated;
use crate::operations::post::post_stated;
use crate::operations::transfer::transfer_stated;
use bank_terms::{MAX_USER, Procedure};
use counter_ops::{Releasable, Release};
use serde_json::Value;

/// The operation that the value states beside the name of its procedure, or none where a release
/// can't be for it.
pub fn releasable_stated(body: &Value) -> Option<Releasable>
    ensures value { result ≡ releasable_of (view body.now) }
    ensures range { IfSome result IsReleasable }
{
    let name = body.get("procedure").and_then(Value::as_str)?;
    match Procedure::named(name)? {
        Procedure::Post => Some(Releasable::Post(post_stated(body, 1)?)),
        Procedure::Transfer => Some(Releasable::Transfer(transfer_stated(body, 1)?)),
        Procedure::Correct => Some(Releasable::Correct(correct_stated(body, 1)?)),
        Procedure::DrawerOn => Some(Releasable::DrawerOn(drawer_on_stated(body, 1)?)),
        Procedure::MoveCash => Some(Releasable::MoveCash(move_cash_stated(body, 1)?)),
        _ => None,
    }
}

/// The user that the value states, and the operation for which they are given authorization.
pub fn release_stated(body: &Value) -> Option<Release>
    ensures value { result ≡ release_of (view body.now) }
    ensures range { IfSome result IsRelease }
{
    if !is_object_of(body, 2) {
        return None;
    }
    Some(Release {
        beneficiary: natural(body, "beneficiary", 1, MAX_USER)?,
        operation: releasable_stated(body.get("operation")?)?,
    })
}
