//! Tests of the rows that name others: relations, triples and certifiers.

ghost use Rattle.std.specs.Prelude.{◌↔◌, ◌≤◌, All, IsTrue, map};
ghost use Rattle.bank_terms.specs.Limits.{max_limit};
ghost use Rattle.keyed_rows.specs.Ordered.{AreDistinct};
ghost use Rattle.bank_policy.specs.PolicyKeys.{certifier_key, relation_key, triple_key};
ghost use Rattle.policy_check.specs.Soundness.{AreCertifiersSound, AreRelationsSound, AreTriplesSound, HasFewOfEachProcedure, HasFewOfEachUser, IsNumber, IsRelated, IsSet, IsSpan, IsUser};

use crate::soundness::is_number;
use bank_policy::{Policy, Triple};
use bank_terms::{MAX_LIMIT, MAX_MOMENT, MAX_RELATIONS, MAX_TRIPLES, Procedure};
use keyed_rows::{has_distinct_keys, has_small_groups, is_there};

pub(crate) fn are_relations_sound(policy: &Policy) -> bool
    ensures { IsTrue result ↔ AreRelationsSound policy.now }
{
    has_distinct_relations(policy)
        && has_numbers_of_relations(policy)
        && has_few_of_each_procedure(policy)
        && has_sets_of_relations(policy)
        && has_users_of_relations(policy)
}

fn has_distinct_relations(policy: &Policy) -> bool
    ensures { IsTrue result ↔ AreDistinct (map relation_key policy.now.relations) }
{
    has_distinct_keys(policy.relations())
}

fn has_numbers_of_relations(policy: &Policy) -> bool
    ensures { IsTrue result ↔ All (λ row. IsNumber row.set) policy.now.relations }
{
    policy.relations().iter().all(|row| is_number(row.set))
}

// Below 2 ^ 32 the sets leave the relations in order of their procedures.
fn has_few_of_each_procedure(policy: &Policy) -> bool
    requires { All (λ row. IsNumber row.set) policy.now.relations }
    ensures { IsTrue result ↔ HasFewOfEachProcedure policy.now.relations }
{
    has_small_groups(policy.relations(), MAX_RELATIONS)
}

fn has_sets_of_relations(policy: &Policy) -> bool
    ensures { IsTrue result ↔ All (λ row. IsSet policy.now row.set) policy.now.relations }
{
    policy.relations().iter().all(|row| is_set(policy, row.set))
}

fn has_users_of_relations(policy: &Policy) -> bool
    ensures { IsTrue result ↔ All (λ row. IsUser policy.now row.by) policy.now.relations }
{
    policy.relations().iter().all(|row| is_user(policy, row.by))
}

pub(crate) fn are_triples_sound(policy: &Policy) -> bool
    ensures { IsTrue result ↔ AreTriplesSound policy.now }
{
    has_distinct_triples(policy)
        && has_numbers_of_triples(policy)
        && has_few_of_each_user(policy)
        && has_users_of_triples(policy)
        && has_relations_of_triples(policy)
        && has_limits_of_triples(policy)
        && has_moments_of_triples(policy)
}

fn has_distinct_triples(policy: &Policy) -> bool
    ensures { IsTrue result ↔ AreDistinct (map triple_key policy.now.triples) }
{
    has_distinct_keys(policy.triples())
}

fn has_numbers_of_triples(policy: &Policy) -> bool
    ensures { IsTrue result ↔ All (λ row. IsNumber row.set) policy.now.triples }
{
    policy.triples().iter().all(|row| is_number(row.set))
}

// Below 2 ^ 32 the sets leave the triples in order of their users.
fn has_few_of_each_user(policy: &Policy) -> bool
    requires { All (λ row. IsNumber row.set) policy.now.triples }
    ensures { IsTrue result ↔ HasFewOfEachUser policy.now.triples }
{
    has_small_groups(policy.triples(), MAX_TRIPLES)
}

fn has_users_of_triples(policy: &Policy) -> bool
    ensures { IsTrue result ↔ All (λ row. IsUser policy.now row.user) policy.now.triples }
{
    policy.triples().iter().all(|row| is_user(policy, row.user))
}

fn has_relations_of_triples(policy: &Policy) -> bool
    ensures { IsTrue result ↔ All (λ row. IsRelated policy.now row.procedure row.set) policy.now.triples }
{
    policy
        .triples()
        .iter()
        .all(|row| is_related(policy, row.procedure, row.set))
}

fn has_limits_of_triples(policy: &Policy) -> bool
    ensures { IsTrue result ↔ All (λ row. row.limit ≤ max_limit) policy.now.triples }
{
    policy.triples().iter().all(|row| row.limit <= MAX_LIMIT)
}

fn has_moments_of_triples(policy: &Policy) -> bool
    ensures { IsTrue result ↔ All IsSpan policy.now.triples }
{
    policy.triples().iter().all(|row| has_span(row))
}

fn has_span(row: &Triple) -> bool
    ensures { IsTrue result ↔ IsSpan row.now }
{
    row.first <= row.last && row.last <= MAX_MOMENT
}

pub(crate) fn are_certifiers_sound(policy: &Policy) -> bool
    ensures { IsTrue result ↔ AreCertifiersSound policy.now }
{
    has_distinct_certifiers(policy) && has_users_of_certifiers(policy)
}

fn has_distinct_certifiers(policy: &Policy) -> bool
    ensures { IsTrue result ↔ AreDistinct (map certifier_key policy.now.certifiers) }
{
    has_distinct_keys(policy.certifiers())
}

fn has_users_of_certifiers(policy: &Policy) -> bool
    ensures { IsTrue result ↔ All (λ row. IsUser policy.now row.user) policy.now.certifiers }
{
    policy
        .certifiers()
        .iter()
        .all(|row| is_user(policy, row.user))
}

#[tactic(auto, unfolding(crate::specs::Soundness::IsUser))]
fn is_user(policy: &Policy, user: u32) -> bool
    ensures { IsTrue result ↔ IsUser policy.now user }
{
    is_there(policy.users(), user as u128)
}

#[tactic(auto, unfolding(crate::specs::Soundness::IsSet))]
fn is_set(policy: &Policy, set: u32) -> bool
    ensures { IsTrue result ↔ IsSet policy.now set }
{
    is_there(policy.sets(), set as u128)
}

#[tactic(auto, unfolding(crate::specs::Soundness::IsRelated))]
fn is_related(policy: &Policy, procedure: Procedure, set: u32) -> bool
    ensures { IsTrue result ↔ IsRelated policy.now procedure set }
{
    policy
        .relations()
        .iter()
        .any(|row| row.procedure == procedure && row.set == set)
}
