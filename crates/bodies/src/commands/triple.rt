//! The body of the grant of a triple: its key and its limit, with its first and last moments or without them.

ghost use Rattle.std.specs.Prelude.{◌≡◌, ◌≤◌, IfSome};
ghost use Rattle.bank_terms.specs.Limits.{max_moment};
ghost use Rattle.serde_json.specs.View.{view};
ghost use Rattle.policy_commands.specs.Ranges.{IsTriple};
ghost use Rattle.bodies.specs.Triple.{timed_triple, triple_during, triple_of};

use crate::commands::named::{procedure, user};
use crate::members::{is_object_of, key, moment, natural};
use bank_policy::Triple;
use bank_terms::{MAX_LIMIT, MAX_MOMENT};
use serde_json::Value;

/// The triple that the value states, to be given. One that states no moments is valid at all of them.
pub fn triple_stated(body: &Value) -> Option<Triple>
    ensures value { result ≡ triple_of (view body.now) }
    ensures range { IfSome result IsTriple }
{
    if is_object_of(body, 4) {
        triple_from(body, 0, MAX_MOMENT)
    } else if is_object_of(body, 6) {
        timed_stated(body)
    } else {
        None
    }
}

/// The triple that the value states with its moments.
fn timed_stated(body: &Value) -> Option<Triple>
    ensures value { result ≡ timed_triple (view body.now) }
    ensures range { IfSome result IsTriple }
{
    let first = moment(body, "first")?;
    let last = moment(body, "last")?;
    if first <= last {
        triple_from(body, first, last)
    } else {
        None
    }
}

/// The triple that the value states beside its moments, which are these.
fn triple_from(body: &Value, first: u64, last: u64) -> Option<Triple>
    requires ordered { first ≤ last }
    requires within { last ≤ max_moment }
    ensures value { result ≡ triple_during first last (view body.now) }
    ensures range { IfSome result IsTriple }
{
    Some(Triple {
        user: user(body)?,
        procedure: procedure(body)?,
        set: key(body, "set")?,
        limit: natural(body, "limit", 0, MAX_LIMIT)?,
        first,
        last,
    })
}
