//! The body of the enrolment of a user: a number, a name, and whether they are an officer.

ghost use Rattle.std.specs.Prelude.{◌≡◌, ◌≤◌, All, IfOk, IfSome, IsTrue};
ghost use Rattle.serde_json.specs.View.{view};
ghost use Rattle.policy_check.specs.Soundness.{IsName};
ghost use Rattle.policy_commands.specs.Ranges.{IsEnrolment};
ghost use Rattle.bodies.specs.Enrolment.{enrolment_of, is_name, is_printable};

use crate::commands::named::user;
use crate::members::is_object_of;
use bank_policy::Name;
use policy_commands::Enrolment;
use serde_json::Value;
use std::alloc::{AllocError, Global};

/// Whether the bytes are all printable ASCII.
fn is_printable(text: &[u8]) -> bool
    ensures value { result ≡ is_printable text.now }
    ensures range { IsTrue result → All (λ byte. (32 ≤ byte) × (byte ≤ 126)) text.now }
{
    text.iter().all(|byte| 32 <= *byte && *byte <= 126)
}

/// Whether the text may be a user's name.
fn is_name(text: &str) -> bool
    ensures value { result ≡ is_name text.now }
    ensures range { IsTrue result → IsName text.now }
{
    1 <= text.len() && text.len() <= 20 && is_printable(text.as_bytes())
}

/// The user that the value states, to be taken in. An error is refused memory.
pub fn enrolment_stated(alloc: Global, body: &Value) -> Result<Option<Enrolment>, AllocError>
    ensures value { IfOk result (λ stated. stated ≡ enrolment_of (view body.now)) }
    ensures range { IfOk result (λ stated. IfSome stated IsEnrolment) }
{
    if !is_object_of(body, 3) {
        return Ok(None);
    }
    let Some(user) = user(body) else {
        return Ok(None);
    };
    let Some(text) = body.get("name").and_then(Value::as_str) else {
        return Ok(None);
    };
    if !is_name(text) {
        return Ok(None);
    }
    let Some(officer) = body.get("officer").and_then(Value::as_bool) else {
        return Ok(None);
    };
    let name = Name::new(alloc, text)?;
    Ok(Some(Enrolment {
        user,
        name,
        officer,
    }))
}
