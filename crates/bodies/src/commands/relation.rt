//! The body of the certification of a relation or of its withdrawal: a procedure and a set.

ghost use Rattle.std.specs.Prelude.{◌≡◌, IfSome};
ghost use Rattle.serde_json.specs.View.{view};
ghost use Rattle.policy_commands.specs.Ranges.{IsRelationKey};
ghost use Rattle.bodies.specs.Relation.{relation_of};

use crate::commands::named::procedure;
use crate::members::{is_object_of, key};
use bank_policy::RelationKey;
use serde_json::Value;

/// The relation that the value states, to be certified or taken away.
pub fn relation_stated(body: &Value) -> Option<RelationKey>
    ensures value { result ≡ relation_of (view body.now) }
    ensures range { IfSome result IsRelationKey }
{
    if !is_object_of(body, 2) {
        return None;
    }
    Some(RelationKey {
        procedure: procedure(body)?,
        set: key(body, "set")?,
    })
}
