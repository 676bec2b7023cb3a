//! The body of a request for accounts: the key above which they begin, and how many are asked for.

ghost use Rattle.std.specs.Prelude.{◌≡◌, IfSome};
ghost use Rattle.serde_json.specs.View.{view};
ghost use Rattle.bodies.specs.Accounts.{accounts_of};
ghost use Rattle.counter_ops.specs.Accounts.{IsAccounts};

use crate::members::{is_object_of, natural};
use bank_terms::{MAX_KEY, MAX_LISTED};
use counter_ops::Accounts;
use serde_json::Value;

/// The key that the value states, above which the accounts are asked for.
pub fn accounts_stated(body: &Value) -> Option<Accounts>
    ensures value { result ≡ accounts_of (view body.now) }
    ensures range { IfSome result IsAccounts }
{
    if !is_object_of(body, 2) {
        return None;
    }
    Some(Accounts {
        after: natural(body, "after", 0, MAX_KEY)?,
        count: natural(body, "count", 1, MAX_LISTED)?,
    })
}
