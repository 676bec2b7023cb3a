//! The lines of the policy as one list, kind by kind.

ghost use Rattle.std.specs.Prelude.{◌≡◌, ◌++◌, map, IfOk, OnOk};
ghost use Rattle.std.specs.List.{flat_map};
ghost use Rattle.world_reads.specs.PolicyListing.{policy_rows, set_members};
ghost use Rattle.world_reads.specs.declared.policy_row.PolicyRow.TheVariants as row;

use crate::policy_row::{PolicyRow, SetMember};
use bank_books::World;
use bank_policy::{Certifier, ItemSet, Name, Relation, Triple, User};
use std::alloc::{AllocError, Global};

/// All lines of the policy: users by number, certifiers by user and procedure, members by set and
/// place, relations by procedure and set, and triples by user, procedure and set. Only memory keeps
/// them from an answer.
pub fn policy_rows(alloc: Global, world: &World) -> Result<Vec<PolicyRow>, AllocError>
    ensures { IfOk result (λ rows. rows.items ≡ policy_rows world.now) }
{
    let policy = world.policy();
    let mut rows = Vec::new(alloc);
    add_users(alloc, policy.users(), &mut rows)?;
    add_certifiers(policy.certifiers(), &mut rows)?;
    add_members(policy.sets(), &mut rows)?;
    add_relations(policy.relations(), &mut rows)?;
    add_triples(policy.triples(), &mut rows)?;
    Ok(rows)
}

/// The same user, with the name in memory of its own.
pub(crate) fn copied_user(alloc: Global, row: &User) -> Result<User, AllocError>
    ensures { IfOk result (λ user. user ≡ row.now) }
{
    Ok(User {
        user: row.user,
        name: Name::new(alloc, row.name.as_str())?,
        officer: row.officer,
        suspended: row.suspended,
        session: row.session,
        on: row.on,
    })
}

fn add_users(alloc: Global, users: &[User], rows: &mut Vec<PolicyRow>) -> Result<(), AllocError>
    ensures { OnOk result (rows.new.items ≡ rows.old.items ++ map row.User users.now) }
{
    for user in users {
        rows.push(PolicyRow::User(copied_user(alloc, user)?))?;
    }
    Ok(())
}

fn add_certifiers(certifiers: &[Certifier], rows: &mut Vec<PolicyRow>) -> Result<(), AllocError>
    ensures { OnOk result (rows.new.items ≡ rows.old.items ++ map row.Certifier certifiers.now) }
{
    for certifier in certifiers {
        rows.push(PolicyRow::Certifier(*certifier))?;
    }
    Ok(())
}

fn add_members(sets: &[ItemSet], rows: &mut Vec<PolicyRow>) -> Result<(), AllocError>
    ensures { OnOk result (rows.new.items ≡ rows.old.items ++ map row.Member (flat_map set_members sets.now)) }
{
    for set in sets {
        add_members_of(set, rows)?;
    }
    Ok(())
}

fn add_members_of(set: &ItemSet, rows: &mut Vec<PolicyRow>) -> Result<(), AllocError>
    ensures { OnOk result (rows.new.items ≡ rows.old.items ++ map row.Member (set_members set.now)) }
{
    let number = set.set();
    let members = set.members();
    let mut place: u64 = 0;
    for member in members {
        place += 1;
        rows.push(PolicyRow::Member(SetMember {
            set: number,
            place,
            member: *member,
        }))?;
    }
    Ok(())
}

fn add_relations(relations: &[Relation], rows: &mut Vec<PolicyRow>) -> Result<(), AllocError>
    ensures { OnOk result (rows.new.items ≡ rows.old.items ++ map row.Relation relations.now) }
{
    for relation in relations {
        rows.push(PolicyRow::Relation(*relation))?;
    }
    Ok(())
}

fn add_triples(triples: &[Triple], rows: &mut Vec<PolicyRow>) -> Result<(), AllocError>
    ensures { OnOk result (rows.new.items ≡ rows.old.items ++ map row.Triple triples.now) }
{
    for triple in triples {
        rows.push(PolicyRow::Triple(*triple))?;
    }
    Ok(())
}
