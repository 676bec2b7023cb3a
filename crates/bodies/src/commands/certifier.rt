//! The body of the naming or the dismissal of a certifier: a user and a procedure.

ghost use Rattle.std.specs.Prelude.{◌≡◌, IfSome};
ghost use Rattle.serde_json.specs.View.{view};
ghost use Rattle.policy_commands.specs.Ranges.{IsCertifierRow};
ghost use Rattle.bodies.specs.Certifier.{certifier_of};

use crate::commands::named::{procedure, user};
use crate::members::is_object_of;
use bank_policy::Certifier;
use serde_json::Value;

/// The certifier that the value states, to be named or dismissed.
pub fn certifier_stated(body: &Value) -> Option<Certifier>
    ensures value { result ≡ certifier_of (view body.now) }
    ensures range { IfSome result IsCertifierRow }
{
    if !is_object_of(body, 2) {
        return None;
    }
    Some(Certifier {
        user: user(body)?,
        procedure: procedure(body)?,
    })
}
