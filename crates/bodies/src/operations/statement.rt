//! The body of a request for a statement: an account, the first turn, and how many entries are asked for.

ghost use Rattle.std.specs.Prelude.{◌≡◌, IfSome};
ghost use Rattle.serde_json.specs.View.{view};
ghost use Rattle.bodies.specs.Statement.{statement_of};
ghost use Rattle.counter_ops.specs.Statement.{IsStatement};

use crate::members::{is_object_of, key, natural};
use bank_terms::MAX_LISTED;
use counter_ops::Statement;
use serde_json::Value;

/// The account that the value states, whose entries are asked for, from a turn on.
pub fn statement_stated(body: &Value) -> Option<Statement>
    ensures value { result ≡ statement_of (view body.now) }
    ensures range { IfSome result IsStatement }
{
    if !is_object_of(body, 3) {
        return None;
    }
    Some(Statement {
        account: key(body, "account")?,
        start: key(body, "start")?,
        count: natural(body, "count", 1, MAX_LISTED)?,
    })
}
