//! The body of the return of a drawer: its teller, its branch, and the cash that was counted in it.

ghost use Rattle.std.specs.Prelude.{◌≡◌, IfSome};
ghost use Rattle.serde_json.specs.View.{view};
ghost use Rattle.bodies.specs.DrawerOff.{drawer_off_of};
ghost use Rattle.counter_ops.specs.DrawerOff.{IsDrawerOff};

use crate::members::{is_object_of, key, member};
use counter_ops::DrawerOff;
use money::{Cents, MAX_CENTS};
use serde_json::Value;

/// The drawer that the value states, with the cash that was counted in it.
pub fn drawer_off_stated(body: &Value) -> Option<DrawerOff>
    ensures value { result ≡ drawer_off_of (view body.now) }
    ensures range { IfSome result IsDrawerOff }
{
    if !is_object_of(body, 3) {
        return None;
    }
    Some(DrawerOff {
        teller: key(body, "teller")?,
        branch: key(body, "branch")?,
        counted: Cents::new(member(body, "counted", 0, MAX_CENTS)?)?,
    })
}
