//! The user and the procedure that the body of a command names.

ghost use Rattle.std.specs.Prelude.{◌≡◌, IfSome};
ghost use Rattle.serde_json.specs.View.{view};
ghost use Rattle.policy_commands.specs.Ranges.{IsUserNumber};
ghost use Rattle.bodies.specs.Named.{procedure_member, user_member};

use crate::members::natural;
use bank_terms::{MAX_USER, Procedure};
use serde_json::Value;

/// The user that the value names, 1 to 9,999.
pub fn user(body: &Value) -> Option<u32>
    ensures value { result ≡ user_member (view body.now) }
    ensures range { IfSome result IsUserNumber }
{
    natural(body, "user", 1, MAX_USER)
}

/// The procedure that the value names.
pub fn procedure(body: &Value) -> Option<Procedure>
    ensures { result ≡ procedure_member (view body.now) }
{
    let name = body.get("procedure").and_then(Value::as_str)?;
    Procedure::named(name)
}
