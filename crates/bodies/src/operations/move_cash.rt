//! The body of a move of cash: two different places of a branch, and the amount.

ghost use Rattle.std.specs.Prelude.{◌≡◌, ◌<◌, IfSome};
ghost use Rattle.serde_json.specs.View.{view};
ghost use Rattle.bodies.specs.MoveCash.{move_cash_of};
ghost use Rattle.counter_ops.specs.MoveCash.{IsMoveCash};

use crate::members::{is_object_of, key, natural};
use bank_terms::{MAX_KEY, MAX_LIMIT};
use counter_ops::MoveCash;
use serde_json::Value;

/// The cash that the value states, to be moved between two places of a branch, where 0 is the
/// vault. The object has `extra` members beside those of the form.
pub fn move_cash_stated(body: &Value, extra: usize) -> Option<MoveCash>
    requires { extra < 2 }
    ensures value { result ≡ move_cash_of extra (view body.now) }
    ensures range { IfSome result IsMoveCash }
{
    if !is_object_of(body, 4 + extra) {
        return None;
    }
    let move_cash = MoveCash {
        source: natural(body, "source", 0, MAX_KEY)?,
        target: natural(body, "target", 0, MAX_KEY)?,
        branch: key(body, "branch")?,
        amount: natural(body, "amount", 1, MAX_LIMIT)?,
    };
    if move_cash.source == move_cash.target {
        return None;
    }
    Some(move_cash)
}
