//! The tables of the policy without the users, in two groups: sets with their members, and who may do what.

ghost use Rattle.std.specs.Prelude.{◌≡◌, IfErr, IfOk, false};
ghost use Rattle.sqlite.specs.Held.{state};
ghost use Rattle.sql_whole.specs.PolicyTables.{AreGrantRows, ArePolicyTables, AreSetRows};
ghost use Rattle.sql_whole.specs.Faults.{IsOfDatabase};
ghost use Rattle.sql_whole.specs.Typed.{AreGrantsTyped, AreSetsTyped, AreTablesTyped};
ghost use Rattle.sql_whole.specs.Whole.{OnReadable, Reads};
ghost use Rattle.sql_schema.specs.Steps.{LeavesNone};

use crate::fault::ReadFault;
use crate::{all_certifiers, all_members, all_relations, all_sets, all_triples};
use bank_policy::{Certifier, Relation, Triple};
use book_kept::MemberRow;
use sql_schema::Edition;
use sqlite::{Alter, Connection};
use std::alloc::Global;

/// Sets by their numbers, and their members.
#[derive(Drop)]
pub struct SetRows {
    /// The numbers of the sets.
    pub sets: Vec<u32>,
    /// The members.
    pub members: Vec<MemberRow>,
}

/// Who may do what.
#[derive(Drop)]
pub struct GrantRows {
    /// The certified relations.
    pub relations: Vec<Relation>,
    /// The triples.
    pub triples: Vec<Triple>,
    /// The certifiers.
    pub certifiers: Vec<Certifier>,
}

/// The tables of the policy but the users, of which a check of the books knows.
#[derive(Drop)]
pub struct PolicyTables {
    /// The sets.
    pub sets: SetRows,
    /// Who may do what on them.
    pub grants: GrantRows,
}

fn set_rows<S: Alter>(
    alloc: Global,
    conn: &mut Connection<S>,
    edition: Edition,
) -> Result<SetRows, ReadFault>
    ensures mode { conn.old.in_transaction ≡ false → conn.new.in_transaction ≡ false }
    ensures whole { Reads edition (state S.Store conn.old) (state S.Store conn.new) AreSetRows result }
    ensures typed { IfOk result AreSetsTyped }
    ensures takes { OnReadable edition (state S.Store conn.old) (state S.Store conn.new) (IfErr result IsOfDatabase) }
    ensures survives { LeavesNone (state S.Store conn.old) (state S.Store conn.new) }
{
    let sets = all_sets(alloc, conn, edition)?;
    let members = all_members(alloc, conn, edition)?;
    Ok(SetRows { sets, members })
}

fn grant_rows<S: Alter>(
    alloc: Global,
    conn: &mut Connection<S>,
    edition: Edition,
) -> Result<GrantRows, ReadFault>
    ensures mode { conn.old.in_transaction ≡ false → conn.new.in_transaction ≡ false }
    ensures whole { Reads edition (state S.Store conn.old) (state S.Store conn.new) (AreGrantRows edition) result }
    ensures typed { IfOk result AreGrantsTyped }
    ensures takes { OnReadable edition (state S.Store conn.old) (state S.Store conn.new) (IfErr result IsOfDatabase) }
    ensures survives { LeavesNone (state S.Store conn.old) (state S.Store conn.new) }
{
    let relations = all_relations(alloc, conn, edition)?;
    let triples = all_triples(alloc, conn, edition)?;
    let certifiers = all_certifiers(alloc, conn, edition)?;
    Ok(GrantRows {
        relations,
        triples,
        certifiers,
    })
}

/// All rows of the policy but the users.
pub fn all_policy_tables<S: Alter>(
    alloc: Global,
    conn: &mut Connection<S>,
    edition: Edition,
) -> Result<PolicyTables, ReadFault>
    ensures mode { conn.old.in_transaction ≡ false → conn.new.in_transaction ≡ false }
    ensures whole { Reads edition (state S.Store conn.old) (state S.Store conn.new) (ArePolicyTables edition) result }
    ensures typed { IfOk result AreTablesTyped }
    ensures takes { OnReadable edition (state S.Store conn.old) (state S.Store conn.new) (IfErr result IsOfDatabase) }
    ensures survives { LeavesNone (state S.Store conn.old) (state S.Store conn.new) }
{
    let sets = set_rows(alloc, conn, edition)?;
    let grants = grant_rows(alloc, conn, edition)?;
    Ok(PolicyTables { sets, grants })
}
