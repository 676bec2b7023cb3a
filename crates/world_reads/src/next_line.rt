//! The line of the policy after a key, found without a list of all lines.

ghost use Rattle.std.specs.Prelude.{◌≡◌, map, IfOk};
ghost use Rattle.std.specs.List.{find, flat_map};
ghost use Rattle.std.specs.Option.{option_copied};
ghost use Rattle.world_reads.specs.PolicyListing.{is_after, is_member_after, is_row_after, lines_after_users, next_policy, set_members};
ghost use Rattle.world_reads.specs.declared.policy_row.PolicyKey.TheVariants as key;
ghost use Rattle.world_reads.specs.declared.policy_row.PolicyRow.TheVariants as row;

use crate::listing::copied_user;
use crate::policy_row::{PolicyKey, PolicyRow, SetMember};
use bank_books::World;
use bank_policy::{ItemSet, Policy, User};
use std::alloc::{AllocError, Global};

/// The line of the policy that is listed after the one of this key, or the first where no key is
/// given; none where no line is listed there. Only memory keeps it from an answer.
pub fn next_policy(
    alloc: Global,
    world: &World,
    after: Option<PolicyKey>,
) -> Result<Option<PolicyRow>, AllocError>
    ensures { IfOk result (λ row. row ≡ next_policy world.now after) }
{
    let policy = world.policy();
    match user_after(policy.users(), after) {
        Some(row) => Ok(Some(PolicyRow::User(copied_user(alloc, row)?))),
        None => Ok(line_after(policy, after)),
    }
}

/// The first line past those of users that is listed after this key.
fn line_after(policy: &Policy, after: Option<PolicyKey>) -> Option<PolicyRow>
    ensures { result ≡ find (is_row_after after) (lines_after_users policy.now) }
{
    if let Some(row) = certifier_after(policy, after) {
        return Some(row);
    }
    if let Some(row) = member_line_after(policy, after) {
        return Some(row);
    }
    if let Some(row) = relation_after(policy, after) {
        return Some(row);
    }
    triple_after(policy, after)
}

fn user_after(users: &[User], after: Option<PolicyKey>) -> Option<&User>
    ensures { option_copied result ≡ find (λ user. is_after after (key.User user.user)) users.now }
{
    users
        .iter()
        .find(|row| PolicyKey::User { user: row.user }.is_after(after))
}

fn certifier_after(policy: &Policy, after: Option<PolicyKey>) -> Option<PolicyRow>
    ensures { result ≡ find (is_row_after after) (map row.Certifier policy.now.certifiers) }
{
    policy
        .certifiers()
        .iter()
        .map(|row| PolicyRow::Certifier(*row))
        .find(|row| row.key().is_after(after))
}

fn relation_after(policy: &Policy, after: Option<PolicyKey>) -> Option<PolicyRow>
    ensures { result ≡ find (is_row_after after) (map row.Relation policy.now.relations) }
{
    policy
        .relations()
        .iter()
        .map(|row| PolicyRow::Relation(*row))
        .find(|row| row.key().is_after(after))
}

fn triple_after(policy: &Policy, after: Option<PolicyKey>) -> Option<PolicyRow>
    ensures { result ≡ find (is_row_after after) (map row.Triple policy.now.triples) }
{
    policy
        .triples()
        .iter()
        .map(|row| PolicyRow::Triple(*row))
        .find(|row| row.key().is_after(after))
}

fn member_line_after(policy: &Policy, after: Option<PolicyKey>) -> Option<PolicyRow>
    ensures { result ≡ find (is_row_after after) (map row.Member (flat_map set_members policy.now.sets)) }
{
    match member_after(policy.sets(), after) {
        Some(row) => Some(PolicyRow::Member(row)),
        None => None,
    }
}

/// The first member of these sets that is listed after this key.
fn member_after(sets: &[ItemSet], after: Option<PolicyKey>) -> Option<SetMember>
    ensures { result ≡ find (is_member_after after) (flat_map set_members sets.now) }
{
    for set in sets {
        if let Some(row) = member_of_after(set, after) {
            return Some(row);
        }
    }
    None
}

fn member_of_after(set: &ItemSet, after: Option<PolicyKey>) -> Option<SetMember>
    ensures { result ≡ find (is_member_after after) (set_members set.now) }
{
    let number = set.set();
    let members = set.members();
    let mut place: u64 = 0;
    for member in members {
        place += 1;
        let row = SetMember {
            set: number,
            place,
            member: *member,
        };
        if is_member_after(row, after) {
            return Some(row);
        }
    }
    None
}

fn is_member_after(row: SetMember, after: Option<PolicyKey>) -> bool
    ensures { result ≡ is_member_after after row }
{
    PolicyKey::Member {
        set: row.set,
        place: row.place,
    }
    .is_after(after)
}
