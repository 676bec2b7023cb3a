//! The rules against each command of the policy, and the change that it makes.

ghost use Rattle.std.specs.Prelude.{◌≡◌, [], ◌∷◌, false, IfOk, IsOkUnless, MatchResult, Ok, Err, IfSome};
ghost use Rattle.certify.specs.Commands.{breaks_separation, change_of, command_changes, first_against_command, is_of_officers, is_out_of_place, is_suspended, is_unknown, names_officer};

use crate::command_rows::CommandRows;
use bank_books::{Plan, RowWrite};
use bank_policy::{PolicyWrite, Relation, Suspension, User};
use bank_terms::{MAX_RELATIONS, MAX_SETS, MAX_TRIPLES, Rule};
use money::Fault;
use policy_commands::{Enrolment, PolicyOp};
use rule_tests::first_denial;
use std::alloc::Global;

/// What carries out a command of this user, or the first rule that denies it. Only memory keeps it from
/// an answer.
pub fn plan_policy(
    alloc: Global,
    rows: &CommandRows,
    by: u32,
    command: PolicyOp,
) -> Result<Result<Plan, Rule>, Fault>
    ensures planned { IfOk result (λ outcome. MatchResult outcome (λ plan. (first_against_command rows.now by command ≡ None) × (plan.items ≡ command_changes command by)) (λ rule. first_against_command rows.now by command ≡ Some rule)) }
    ensures denied { IfSome (first_against_command rows.now by command) (λ rule. result ≡ Ok (Err rule)) }
    ensures memory { IsOkUnless result Fault.Memory }
{
    if let Some(rule) = rule_against_command(rows, by, &command) {
        return Ok(Err(rule));
    }
    let mut plan = Vec::new(alloc);
    plan.push(RowWrite::Policy(change_of(command, by)))?;
    Ok(Ok(plan))
}

/// The change of the policy that a command of this user makes, where no rule denies it.
fn change_of(command: PolicyOp, by: u32) -> PolicyWrite
    ensures { result ≡ change_of command by }
{
    match command {
        PolicyOp::DefineSet(set) => PolicyWrite::Set(set),
        PolicyOp::Certify(key) => PolicyWrite::Relation(Relation {
            procedure: key.procedure,
            set: key.set,
            by,
        }),
        PolicyOp::Withdraw(key) => PolicyWrite::NoRelation(key),
        PolicyOp::Grant(triple) => PolicyWrite::Triple(triple),
        PolicyOp::Revoke(key) => PolicyWrite::NoTriple(key),
        PolicyOp::Appoint(certifier) => PolicyWrite::Certifier(certifier),
        PolicyOp::Dismiss(certifier) => PolicyWrite::NoCertifier(certifier),
        PolicyOp::Enrol(enrolment) => PolicyWrite::User(user_of(enrolment)),
        PolicyOp::Suspend(key) => PolicyWrite::Suspended(Suspension {
            user: key.user,
            suspended: true,
        }),
        PolicyOp::Restore(key) => PolicyWrite::Suspended(Suspension {
            user: key.user,
            suspended: false,
        }),
    }
}

/// A user who is taken in, and has had no session.
fn user_of(enrolment: Enrolment) -> User
    ensures { result ≡ record { user = enrolment.user; name = enrolment.name; officer = enrolment.officer; suspended = false; session = 0; on = false } }
{
    User {
        user: enrolment.user,
        name: enrolment.name,
        officer: enrolment.officer,
        suspended: false,
        session: 0,
        on: false,
    }
}

/// The first rule that denies a command of this user, or none. It takes no memory.
pub fn rule_against_command(rows: &CommandRows, by: u32, command: &PolicyOp) -> Option<Rule>
    ensures { result ≡ first_against_command rows.now by command.now }
{
    let is_of_officers = is_of_officers(command);
    first_denial(&[
        (Rule::Officer, is_of_officers && !rows.officer),
        (Rule::Certifier, !is_of_officers && !rows.certifies),
        (Rule::Separation, breaks_separation(rows, command)),
        (Rule::PolicyUnknown, is_unknown(rows, command)),
        (Rule::PolicyState, is_out_of_place(rows, by, command)),
    ])
}

/// Whether an officer asks for it, and not a certifier.
fn is_of_officers(command: &PolicyOp) -> bool
    ensures { result ≡ is_of_officers command.now }
{
    match command {
        PolicyOp::DefineSet(_)
        | PolicyOp::Certify(_)
        | PolicyOp::Withdraw(_)
        | PolicyOp::Grant(_)
        | PolicyOp::Revoke(_) => false,
        PolicyOp::Appoint(_)
        | PolicyOp::Dismiss(_)
        | PolicyOp::Enrol(_)
        | PolicyOp::Suspend(_)
        | PolicyOp::Restore(_) => true,
    }
}

/// Whether a user would execute what they may certify or what is certified by them, or an officer would do either.
fn breaks_separation(rows: &CommandRows, command: &PolicyOp) -> bool
    ensures { result ≡ breaks_separation rows.now command.now }
{
    match command {
        PolicyOp::Grant(_) => names_officer(rows) || rows.has_certified,
        PolicyOp::Appoint(_) => names_officer(rows) || rows.executes,
        PolicyOp::DefineSet(_)
        | PolicyOp::Certify(_)
        | PolicyOp::Withdraw(_)
        | PolicyOp::Revoke(_)
        | PolicyOp::Dismiss(_)
        | PolicyOp::Enrol(_)
        | PolicyOp::Suspend(_)
        | PolicyOp::Restore(_) => false,
    }
}

/// Whether something that it names, other than what it adds, is not there.
fn is_unknown(rows: &CommandRows, command: &PolicyOp) -> bool
    ensures { result ≡ is_unknown rows.now command.now }
{
    match command {
        PolicyOp::Certify(_) => !rows.has_set,
        PolicyOp::Grant(_) => rows.user.is_none() || !rows.is_related,
        PolicyOp::Withdraw(_) | PolicyOp::Revoke(_) | PolicyOp::Dismiss(_) => !rows.is_there,
        PolicyOp::Appoint(_) | PolicyOp::Suspend(_) | PolicyOp::Restore(_) => rows.user.is_none(),
        PolicyOp::DefineSet(_) | PolicyOp::Enrol(_) => false,
    }
}

/// Whether what it adds is there already or has no room, or the user is suspended already, is who asks,
/// or is not suspended who would be restored.
fn is_out_of_place(rows: &CommandRows, by: u32, command: &PolicyOp) -> bool
    ensures { result ≡ is_out_of_place rows.now by command.now }
{
    match command {
        PolicyOp::DefineSet(_) => rows.is_there || MAX_SETS as u64 <= rows.count,
        PolicyOp::Certify(_) => rows.is_there || MAX_RELATIONS as u64 <= rows.count,
        PolicyOp::Grant(_) => rows.is_there || MAX_TRIPLES as u64 <= rows.count,
        PolicyOp::Appoint(_) | PolicyOp::Enrol(_) => rows.is_there,
        PolicyOp::Suspend(key) => is_suspended(rows) || key.user == by,
        PolicyOp::Restore(_) => !is_suspended(rows),
        PolicyOp::Withdraw(_) | PolicyOp::Revoke(_) | PolicyOp::Dismiss(_) => false,
    }
}

/// Whether the user whom a command names is an officer.
fn names_officer(rows: &CommandRows) -> bool
    ensures { result ≡ names_officer rows.now }
{
    rows.user.is_some_and(|standing| standing.officer)
}

/// Whether that user is suspended.
fn is_suspended(rows: &CommandRows) -> bool
    ensures { result ≡ is_suspended rows.now }
{
    rows.user.is_some_and(|standing| standing.suspended)
}
