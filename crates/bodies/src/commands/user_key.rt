//! The body of the suspension of a user or of its end: the user's number.

ghost use Rattle.std.specs.Prelude.{◌≡◌, IfSome};
ghost use Rattle.serde_json.specs.View.{view};
ghost use Rattle.policy_commands.specs.Ranges.{IsUserKey};
ghost use Rattle.bodies.specs.UserKey.{user_key_of};

use crate::commands::named::user;
use crate::members::is_object_of;
use policy_commands::UserKey;
use serde_json::Value;

/// The user that the value names, to be suspended or restored.
pub fn user_key_stated(body: &Value) -> Option<UserKey>
    ensures value { result ≡ user_key_of (view body.now) }
    ensures range { IfSome result IsUserKey }
{
    if !is_object_of(body, 1) {
        return None;
    }
    Some(UserKey { user: user(body)? })
}
