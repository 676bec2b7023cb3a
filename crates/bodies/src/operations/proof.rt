//! The body of a request for the proof of the books: a branch.

ghost use Rattle.std.specs.Prelude.{◌≡◌, IfSome};
ghost use Rattle.serde_json.specs.View.{view};
ghost use Rattle.bodies.specs.Proof.{proof_of};
ghost use Rattle.row_members.specs.Ranges.{IsKey};

use crate::members::{is_object_of, key};
use counter_ops::Proof;
use serde_json::Value;

/// The branch that the value states, whose books are asked for.
pub fn proof_stated(body: &Value) -> Option<Proof>
    ensures value { result ≡ proof_of (view body.now) }
    ensures range { IfSome result (λ proof. IsKey proof.branch) }
{
    if !is_object_of(body, 1) {
        return None;
    }
    Some(Proof {
        branch: key(body, "branch")?,
    })
}
