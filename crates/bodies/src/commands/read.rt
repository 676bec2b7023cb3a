//! The body of a command, read from its bytes in the form of that command.

ghost use Rattle.std.specs.Prelude.{◌≡◌, ◌<◌, length, None, IfOk, IfErr, IfSome};
ghost use Rattle.serde_json.specs.Errors.{IsMemory};
ghost use Rattle.serde_json.specs.View.{view};
ghost use Rattle.policy_commands.specs.PolicyOp.{command_of};
ghost use Rattle.policy_commands.specs.Ranges.{IsPolicyOp};
ghost use Rattle.bodies.specs.Command.{policy_op_of, stated_command};

use crate::commands::certifier::certifier_stated;
use crate::commands::enrolment::enrolment_stated;
use crate::commands::item_set::item_set_stated;
use crate::commands::relation::relation_stated;
use crate::commands::triple::triple_stated;
use crate::commands::triple_key::triple_key_stated;
use crate::commands::user_key::user_key_stated;
use policy_commands::{Command, PolicyOp};
use serde_json::{Error, Value};
use std::alloc::{AllocError, Global};

/// What the value states for the command. An error is refused memory.
fn policy_op_stated(
    alloc: Global,
    command: Command,
    body: &Value,
) -> Result<Option<PolicyOp>, AllocError>
    ensures value { IfOk result (λ stated. stated ≡ policy_op_of command (view body.now)) }
    ensures range { IfOk result (λ stated. IfSome stated IsPolicyOp) }
    ensures command { IfOk result (λ stated. IfSome stated (λ asked. command_of asked ≡ command)) }
{
    let stated = match command {
        Command::DefineSet => item_set_stated(alloc, body)?.map(PolicyOp::DefineSet),
        Command::Certify => relation_stated(body).map(PolicyOp::Certify),
        Command::Withdraw => relation_stated(body).map(PolicyOp::Withdraw),
        Command::Grant => triple_stated(body).map(PolicyOp::Grant),
        Command::Revoke => triple_key_stated(body).map(PolicyOp::Revoke),
        Command::Appoint => certifier_stated(body).map(PolicyOp::Appoint),
        Command::Dismiss => certifier_stated(body).map(PolicyOp::Dismiss),
        Command::Enrol => enrolment_stated(alloc, body)?.map(PolicyOp::Enrol),
        Command::Suspend => user_key_stated(body).map(PolicyOp::Suspend),
        Command::Restore => user_key_stated(body).map(PolicyOp::Restore),
    };
    Ok(stated)
}

/// What the bytes state that were refused with this error: nothing, unless memory was refused and
/// they were not read.
fn stated_at(error: &Error) -> Result<Option<PolicyOp>, AllocError>
    ensures none { IfOk result (λ stated. (¬ IsMemory error.now) × (stated ≡ None)) }
    ensures memory { IfErr result (λ _. IsMemory error.now) }
{
    if error.is_memory() {
        Err(AllocError)
    } else {
        Ok(None)
    }
}

/// What the bytes of a request's body state for the command, or none exactly where they state
/// nothing: where they are no text or no JSON, or no object with exactly the members of the command's
/// form, each in its range. An error is refused memory and nothing else.
pub fn read_command(
    alloc: Global,
    command: Command,
    body: &[u8],
) -> Result<Option<PolicyOp>, AllocError>
    ensures exact { IfOk result (λ stated. stated ≡ stated_command command body.now) }
    ensures range { IfOk result (λ stated. IfSome stated IsPolicyOp) }
    ensures command { IfOk result (λ stated. IfSome stated (λ asked. command_of asked ≡ command)) }
    // Memory is asked for only where there are bytes.
    ensures memory { IfErr result (λ _. 0 < length body.now) }
{
    match Value::from_slice(alloc, body) {
        Ok(value) => policy_op_stated(alloc, command, &value),
        Err(error) => stated_at(&error),
    }
}
