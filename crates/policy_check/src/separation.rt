//! Who breaks the separation of duty: an officer who holds something, or a user who may execute what they certify.

ghost use Rattle.std.specs.Prelude.{◌↔◌, ◌<◌, ℕ, IsTrue, MatchOption};
ghost use Rattle.policy_check.specs.PolicyVerdict.{IsLeastBreak, IsLeastOfficer};
ghost use Rattle.policy_check.specs.Soundness.{IsPolicySound};
ghost use Rattle.policy_check.specs.Separation.{BreaksSeparation, Certifies, HasCertified, Holds, IsCertifier, OfficerHolds};

use bank_policy::{Policy, User};
use bank_terms::Procedure;

/// The least officer who has a triple, is a certifier, or by whom a relation stands.
pub(crate) fn first_officer(policy: &Policy) -> Option<u32>
    ensures { MatchOption result ((user : ℕ) → ¬ OfficerHolds policy.now user) (λ user. IsLeastOfficer policy.now user) }
{
    policy
        .users()
        .iter()
        .find(|row| holds_as_officer(policy, row))
        .map(|row| row.user)
}

/// The least user who may execute a procedure that they certify, with the least number of such a procedure.
pub(crate) fn first_break(policy: &Policy) -> Option<(u32, Procedure)>
    requires { IsPolicySound policy.now }
    ensures { MatchOption result
        ((user : ℕ) (procedure : Procedure) → ¬ BreaksSeparation policy.now user procedure)
        (λ found. IsLeastBreak policy.now found.0 found.1) }
{
    policy
        .triples()
        .iter()
        .find(|row| certifies(policy, row.user, row.procedure))
        .map(|row| (row.user, row.procedure))
}

fn holds_as_officer(policy: &Policy, row: &User) -> bool
    ensures { IsTrue result ↔ (IsTrue row.now.officer × Holds policy.now row.now.user) }
{
    row.officer && holds(policy, row.user)
}

fn holds(policy: &Policy, user: u32) -> bool
    ensures { IsTrue result ↔ Holds policy.now user }
{
    policy.triples().iter().any(|row| row.user == user)
        || policy.certifiers().iter().any(|row| row.user == user)
        || policy.relations().iter().any(|row| row.by == user)
}

fn certifies(policy: &Policy, user: u32, procedure: Procedure) -> bool
    ensures { IsTrue result ↔ Certifies policy.now user procedure }
{
    is_certifier(policy, user, procedure) || has_certified(policy, user, procedure)
}

fn is_certifier(policy: &Policy, user: u32, procedure: Procedure) -> bool
    ensures { IsTrue result ↔ IsCertifier policy.now user procedure }
{
    policy
        .certifiers()
        .iter()
        .any(|row| row.user == user && row.procedure == procedure)
}

fn has_certified(policy: &Policy, user: u32, procedure: Procedure) -> bool
    ensures { IsTrue result ↔ HasCertified policy.now user procedure }
{
    policy
        .relations()
        .iter()
        .any(|row| row.by == user && row.procedure == procedure)
}
