//! The body of the handing out of a drawer: its teller, its branch, and the cash from the vault.

ghost use Rattle.std.specs.Prelude.{◌≡◌, ◌<◌, IfSome};
ghost use Rattle.serde_json.specs.View.{view};
ghost use Rattle.bodies.specs.DrawerOn.{drawer_on_of};
ghost use Rattle.counter_ops.specs.DrawerOn.{IsDrawerOn};

use crate::members::{is_object_of, key, natural};
use bank_terms::MAX_LIMIT;
use counter_ops::DrawerOn;
use serde_json::Value;

/// The drawer that the value states, to be given to the user with cash from the vault. The object
/// has `extra` members beside those of the form.
pub fn drawer_on_stated(body: &Value, extra: usize) -> Option<DrawerOn>
    requires { extra < 2 }
    ensures value { result ≡ drawer_on_of extra (view body.now) }
    ensures range { IfSome result IsDrawerOn }
{
    if !is_object_of(body, 3 + extra) {
        return None;
    }
    Some(DrawerOn {
        teller: key(body, "teller")?,
        branch: key(body, "branch")?,
        cash: natural(body, "cash", 0, MAX_LIMIT)?,
    })
}
