//! The body of a request for a balance: an account.

ghost use Rattle.std.specs.Prelude.{◌≡◌, IfSome};
ghost use Rattle.serde_json.specs.View.{view};
ghost use Rattle.bodies.specs.Balance.{balance_of};
ghost use Rattle.row_members.specs.Ranges.{IsKey};

use crate::members::{is_object_of, key};
use counter_ops::Balance;
use serde_json::Value;

/// The account that the value states, whose balance is asked for.
pub fn balance_stated(body: &Value) -> Option<Balance>
    ensures value { result ≡ balance_of (view body.now) }
    ensures range { IfSome result (λ balance. IsKey balance.account) }
{
    if !is_object_of(body, 1) {
        return None;
    }
    Some(Balance {
        account: key(body, "account")?,
    })
}
