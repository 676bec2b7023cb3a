//! The request that a message states at a moment, from its path, its fields and its body.

ghost use Rattle.std.specs.Prelude.{◌≡◌, ◌≤◌, IfOk, IsOkUnless};
ghost use Rattle.bank_terms.specs.Limits.{max_moment};
ghost use Rattle.money.specs.declared.fault.Fault.TheVariants.{Memory};
ghost use Rattle.bank_meaning.specs.Sums.{IsProper};
ghost use Rattle.requests.specs.Fields.{who_of, who_of_operation};
ghost use Rattle.requests.specs.Request.{asked_by, commanded_by, request_of, session_by};

use crate::fields::{who_by_badge, who_of, who_of_operation};
use crate::gate::Gate;
use crate::routes::{Route, Routes};
use bank_meaning::{Asked, Request, Who};
use bank_terms::Procedure;
use bodies::{read_command, read_op};
use http_heads::MessageFault;
use http_messages::Message;
use money::Fault;
use policy_commands::Command;
use std::alloc::Global;

/// The request that a message states at a moment, or its fault.
pub fn stated_request<G: Gate>(
    alloc: Global,
    routes: &Routes,
    gate: &G,
    message: &Message<'_>,
    moment: u64,
) -> Result<Result<Request, MessageFault>, Fault>
    requires { moment ≤ max_moment }
    ensures stated { IfOk result (λ stated. stated ≡ request_of (G.users gate.now) moment message.now) }
    ensures proper { IfOk result (λ stated. IfOk stated IsProper) }
    ensures memory { IsOkUnless result Memory }
{
    match routes.route(message.method(), message.target()) {
        Some(Route::Operation(procedure)) => {
            stated_operation(alloc, procedure, gate, message, moment)
        }
        Some(Route::Opening) => Ok(stated_session(
            who_by_badge(message, gate),
            moment,
            Asked::Opening,
        )),
        Some(Route::Ending) => Ok(stated_session(who_of(message, gate), moment, Asked::Ending)),
        Some(Route::Policy(command)) => stated_policy(alloc, command, gate, message, moment),
        Some(Route::Listing) => Ok(stated_session(who_of(message, gate), moment, Asked::Listing)),
        None => Ok(Err(MessageFault::NoSuchRoute)),
    }
}

/// The operation of a procedure that a message states at a moment, or its fault.
fn stated_operation<G: Gate>(
    alloc: Global,
    procedure: Procedure,
    gate: &G,
    message: &Message<'_>,
    moment: u64,
) -> Result<Result<Request, MessageFault>, Fault>
    requires { moment ≤ max_moment }
    ensures stated { IfOk result (λ stated. stated ≡ asked_by procedure moment message.now.body (who_of_operation (G.users gate.now) procedure message.now.head.fields)) }
    ensures proper { IfOk result (λ stated. IfOk stated IsProper) }
    ensures memory { IsOkUnless result Memory }
{
    let who = match who_of_operation(message, gate, procedure) {
        Ok(who) => who,
        Err(fault) => return Ok(Err(fault)),
    };
    match read_op(alloc, procedure, message.body())? {
        Some(op) => Ok(Ok(Request {
            who,
            moment,
            asked: Asked::Operation(op),
        })),
        None => Ok(Err(MessageFault::BadContent)),
    }
}

/// The command of the policy that a message states at a moment, or its fault.
fn stated_policy<G: Gate>(
    alloc: Global,
    command: Command,
    gate: &G,
    message: &Message<'_>,
    moment: u64,
) -> Result<Result<Request, MessageFault>, Fault>
    requires { moment ≤ max_moment }
    ensures stated { IfOk result (λ stated. stated ≡ commanded_by command moment message.now.body (who_of (G.users gate.now) message.now.head.fields)) }
    ensures proper { IfOk result (λ stated. IfOk stated IsProper) }
    ensures memory { IsOkUnless result Memory }
{
    let who = match who_of(message, gate) {
        Ok(who) => who,
        Err(fault) => return Ok(Err(fault)),
    };
    match read_command(alloc, command, message.body())? {
        Some(command) => Ok(Ok(Request {
            who,
            moment,
            asked: Asked::Command(command),
        })),
        None => Ok(Err(MessageFault::BadContent)),
    }
}

/// The opening or the ending of a session, or the listing of the policy, asked at a moment by who it is. The body isn't looked at.
fn stated_session(
    who: Result<Who, MessageFault>,
    moment: u64,
    asked: Asked,
) -> Result<Request, MessageFault>
    ensures { result ≡ session_by asked moment who }
{
    Ok(Request {
        who: who?,
        moment,
        asked,
    })
}
