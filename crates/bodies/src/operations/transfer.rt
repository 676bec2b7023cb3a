//! The body of a transfer: two different accounts, a teller, a branch, and the amount.

ghost use Rattle.std.specs.Prelude.{◌≡◌, ◌<◌, IfSome};
ghost use Rattle.serde_json.specs.View.{view};
ghost use Rattle.bodies.specs.Transfer.{transfer_of};
ghost use Rattle.counter_ops.specs.Transfer.{IsTransfer};

use crate::members::{is_object_of, key, natural};
use bank_terms::MAX_TRANSFER;
use counter_ops::Transfer;
use serde_json::Value;

/// The amount that the value states, to be moved from one account to another. The object has
/// `extra` members beside those of a transfer.
pub fn transfer_stated(body: &Value, extra: usize) -> Option<Transfer>
    requires { extra < 2 }
    ensures value { result ≡ transfer_of extra (view body.now) }
    ensures range { IfSome result IsTransfer }
{
    if !is_object_of(body, 5 + extra) {
        return None;
    }
    let transfer = Transfer {
        source: key(body, "source")?,
        target: key(body, "target")?,
        teller: key(body, "teller")?,
        branch: key(body, "branch")?,
        amount: natural(body, "amount", 1, MAX_TRANSFER)?,
    };
    if transfer.source == transfer.target {
        return None;
    }
    Some(transfer)
}
