//! The body of a correction: an entry, its accounts and its amount, and the teller at whom it is undone.

ghost use Rattle.std.specs.Prelude.{◌≡◌, ◌<◌, IfSome};
ghost use Rattle.serde_json.specs.View.{view};
ghost use Rattle.bodies.specs.Correct.{correct_of};
ghost use Rattle.counter_ops.specs.Correct.{IsCorrect};

use crate::members::{delta, is_object_of, key, natural};
use bank_terms::MAX_KEY;
use counter_ops::Correct;
use serde_json::Value;

/// The entry that the value states, to be undone. The object has `extra` members beside those of
/// a correction.
pub fn correct_stated(body: &Value, extra: usize) -> Option<Correct>
    requires { extra < 2 }
    ensures value { result ≡ correct_of extra (view body.now) }
    ensures range { IfSome result IsCorrect }
{
    if !is_object_of(body, 6 + extra) {
        return None;
    }
    let correct = Correct {
        branch: key(body, "branch")?,
        entry: key(body, "entry")?,
        account: key(body, "account")?,
        other: natural(body, "other", 0, MAX_KEY)?,
        teller: key(body, "teller")?,
        delta: delta(body, "delta")?,
    };
    if correct.account == correct.other {
        return None;
    }
    Some(correct)
}
