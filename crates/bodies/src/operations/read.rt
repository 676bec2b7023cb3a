//! The body of an operation, read from its bytes in the form of its procedure.

ghost use Rattle.std.specs.Prelude.{◌≡◌, ◌<◌, length, None, IfOk, IfErr, IfSome, IsOkUnless};
ghost use Rattle.serde_json.specs.Errors.{IsMemory};
ghost use Rattle.serde_json.specs.View.{view};
ghost use Rattle.money.specs.declared.fault.Fault.TheVariants.{Memory};
ghost use Rattle.counter_ops.specs.Op.{procedure_of};
ghost use Rattle.bodies.specs.Operation.{op_of, stated_op};
ghost use Rattle.counter_ops.specs.Operations.{IsOp};

use crate::operations::accounts::accounts_stated;
use crate::operations::balance::balance_stated;
use crate::operations::close_day::close_day_stated;
use crate::operations::correct::correct_stated;
use crate::operations::drawer_off::drawer_off_stated;
use crate::operations::drawer_on::drawer_on_stated;
use crate::operations::move_cash::move_cash_stated;
use crate::operations::new_account::new_account_stated;
use crate::operations::post::post_stated;
use crate::operations::proof::proof_stated;
use crate::operations::release::release_stated;
use crate::operations::statement::statement_stated;
use crate::operations::transfer::transfer_stated;
use bank_terms::Procedure;
use counter_ops::Op;
use money::Fault;
use serde_json::{Error, Value};
use std::alloc::Global;

/// The operation that the value states for the procedure.
fn op_stated(procedure: Procedure, body: &Value) -> Option<Op>
    ensures value { result ≡ op_of procedure (view body.now) }
    ensures range { IfSome result IsOp }
    ensures procedure { IfSome result (λ op. procedure_of op ≡ procedure) }
{
    match procedure {
        Procedure::Post => Some(Op::Post(post_stated(body, 0)?)),
        Procedure::Transfer => Some(Op::Transfer(transfer_stated(body, 0)?)),
        Procedure::Correct => Some(Op::Correct(correct_stated(body, 0)?)),
        Procedure::DrawerOn => Some(Op::DrawerOn(drawer_on_stated(body, 0)?)),
        Procedure::DrawerOff => Some(Op::DrawerOff(drawer_off_stated(body)?)),
        Procedure::MoveCash => Some(Op::MoveCash(move_cash_stated(body, 0)?)),
        Procedure::NewAccount => Some(Op::NewAccount(new_account_stated(body)?)),
        Procedure::Release => Some(Op::Release(release_stated(body)?)),
        Procedure::Balance => Some(Op::Balance(balance_stated(body)?)),
        Procedure::Statement => Some(Op::Statement(statement_stated(body)?)),
        Procedure::Accounts => Some(Op::Accounts(accounts_stated(body)?)),
        Procedure::Proof => Some(Op::Proof(proof_stated(body)?)),
        Procedure::CloseDay => Some(Op::CloseDay(close_day_stated(body)?)),
    }
}

/// What the bytes state that were refused with this error: nothing, unless memory was refused and
/// they were not read.
fn stated_at(error: &Error) -> Result<Option<Op>, Fault>
    ensures none { IfOk result (λ stated. (¬ IsMemory error.now) × (stated ≡ None)) }
    ensures memory { IfErr result (λ fault. IsMemory error.now × (fault ≡ Memory)) }
{
    if error.is_memory() {
        Err(Fault::Memory)
    } else {
        Ok(None)
    }
}

/// The operation that the bytes of a request's body state for the procedure, or none exactly where
/// they state none: where they are no text or no JSON, or no object with exactly the members of the
/// procedure's form, each in its range. An error is `Fault::Memory` and no other.
pub fn read_op(alloc: Global, procedure: Procedure, body: &[u8]) -> Result<Option<Op>, Fault>
    ensures exact { IfOk result (λ stated. stated ≡ stated_op procedure body.now) }
    ensures range { IfOk result (λ stated. IfSome stated IsOp) }
    ensures procedure { IfOk result (λ stated. IfSome stated (λ op. procedure_of op ≡ procedure)) }
    ensures memory { IsOkUnless result Memory }
    // Memory is asked for only where there are bytes.
    ensures some { IfErr result (λ _. 0 < length body.now) }
{
    match Value::from_slice(alloc, body) {
        Ok(value) => Ok(op_stated(procedure, &value)),
        Err(error) => stated_at(&error),
    }
}
