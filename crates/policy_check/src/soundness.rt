//! Tests that no row of a policy dangles: users and sets here, the rows that name them in `references`.

ghost use Rattle.std.specs.Prelude.{◌↔◌, IsTrue};
ghost use Rattle.policy_check.specs.Soundness.{AreSetsSound, AreUsersSound, IsMemberSound, IsName, IsNumber, IsPolicySound, IsSetSound, IsUserSound};

use crate::references::{are_certifiers_sound, are_relations_sound, are_triples_sound};
use bank_policy::{ItemSet, Member, Name, Policy, User};
use bank_terms::{MAX_KEY, MAX_SETS, MAX_USER};
use keyed_rows::has_distinct_keys;

/// Whether no row of the policy dangles.
pub(crate) fn is_policy_sound(policy: &Policy) -> bool
    ensures { IsTrue result ↔ IsPolicySound policy.now }
{
    are_users_sound(policy)
        && are_sets_sound(policy)
        && are_relations_sound(policy)
        && are_triples_sound(policy)
        && are_certifiers_sound(policy)
}

fn are_users_sound(policy: &Policy) -> bool
    ensures { IsTrue result ↔ AreUsersSound policy.now.users }
{
    has_distinct_keys(policy.users()) && policy.users().iter().all(|row| is_user_sound(row))
}

fn is_user_sound(row: &User) -> bool
    ensures { IsTrue result ↔ IsUserSound row.now }
{
    1 <= row.user && row.user <= MAX_USER && is_name(&row.name)
}

fn is_name(name: &Name) -> bool
    ensures { IsTrue result ↔ IsName name.now }
{
    let bytes = name.as_str().as_bytes();
    1 <= bytes.len() && bytes.len() <= 20 && bytes.iter().all(|byte| 32 <= *byte && *byte <= 126)
}

fn are_sets_sound(policy: &Policy) -> bool
    ensures { IsTrue result ↔ AreSetsSound policy.now.sets }
{
    has_distinct_keys(policy.sets())
        && policy.sets().len() <= MAX_SETS
        && policy.sets().iter().all(|row| is_set_sound(row))
}

fn is_set_sound(row: &ItemSet) -> bool
    ensures { IsTrue result ↔ IsSetSound row.now }
{
    is_number(row.set())
        && 1 <= row.members().len()
        && row.members().len() <= 32
        && row.members().iter().all(|member| is_member_sound(member))
}

fn is_member_sound(member: &Member) -> bool
    ensures { IsTrue result ↔ IsMemberSound member.now }
{
    1 <= member.low && member.low <= member.high && member.high <= MAX_KEY
}

pub(crate) fn is_number(number: u32) -> bool
    ensures { IsTrue result ↔ IsNumber number }
{
    1 <= number && number <= MAX_KEY
}
