//! The body of the revocation of a triple: a user, a procedure and a set.

ghost use Rattle.std.specs.Prelude.{◌≡◌, IfSome};
ghost use Rattle.serde_json.specs.View.{view};
ghost use Rattle.policy_commands.specs.Ranges.{IsTripleKey};
ghost use Rattle.bodies.specs.TripleKey.{triple_key_of};

use crate::commands::named::{procedure, user};
use crate::members::{is_object_of, key};
use bank_policy::TripleKey;
use serde_json::Value;

/// The triple that the value names, to be taken away.
pub fn triple_key_stated(body: &Value) -> Option<TripleKey>
    ensures value { result ≡ triple_key_of (view body.now) }
    ensures range { IfSome result IsTripleKey }
{
    if !is_object_of(body, 3) {
        return None;
    }
    Some(TripleKey {
        user: user(body)?,
        procedure: procedure(body)?,
        set: key(body, "set")?,
    })
}
