//! The body of the closing of a day: a branch.

ghost use Rattle.std.specs.Prelude.{◌≡◌, IfSome};
ghost use Rattle.serde_json.specs.View.{view};
ghost use Rattle.bodies.specs.CloseDay.{close_day_of};
ghost use Rattle.row_members.specs.Ranges.{IsKey};

use crate::members::{is_object_of, key};
use counter_ops::CloseDay;
use serde_json::Value;

/// The branch that the value states, whose day is to end.
pub fn close_day_stated(body: &Value) -> Option<CloseDay>
    ensures value { result ≡ close_day_of (view body.now) }
    ensures range { IfSome result (λ close_day. IsKey close_day.branch) }
{
    if !is_object_of(body, 1) {
        return None;
    }
    Some(CloseDay {
        branch: key(body, "branch")?,
    })
}
