//! The body of the opening of an account: its key, its branch, and its floor.

ghost use Rattle.std.specs.Prelude.{◌≡◌, IfSome};
ghost use Rattle.serde_json.specs.View.{view};
ghost use Rattle.bodies.specs.NewAccount.{new_account_of};
ghost use Rattle.counter_ops.specs.NewAccount.{IsNewAccount};

use crate::members::{is_object_of, key, member};
use bank_terms::MIN_FLOOR;
use counter_ops::NewAccount;
use serde_json::Value;

/// The account that the value states, with its home and its floor.
pub fn new_account_stated(body: &Value) -> Option<NewAccount>
    ensures value { result ≡ new_account_of (view body.now) }
    ensures range { IfSome result IsNewAccount }
{
    if !is_object_of(body, 3) {
        return None;
    }
    Some(NewAccount {
        account: key(body, "account")?,
        branch: key(body, "branch")?,
        floor: member(body, "floor", i64::from(MIN_FLOOR), 0)? as i32,
    })
}
