//! Rows of the policy in SQL tables: what is taken away with a relation.

use crate::compare::same;
use crate::tables::{Tables, empty_tables};
use bank_policy::{Member, Relation, RelationKey, Triple};
use bank_terms::{Kind, MAX_MOMENT, Procedure};
use book_kept::MemberRow;
use money::Fault;
use sql_policy::{
    add_member, add_relation, add_set, add_triple, relation_of, remove_relation, triple_of,
};
use std::process::Abort;

/// Set 2 with two intervals, posts and balances certified on it, and user 7 authorized to post up to 500 from
/// moment 800 on.
fn write_policy(rt: &impl Abort, tx: &mut Tables<'_>) {
    same(rt, add_set(tx, 2), Ok(()));
    for (place, kind) in [(2, Kind::Drawer), (1, Kind::Account)] {
        same(rt, add_member(tx, &member_row(place, kind)), Ok(()));
    }
    for procedure in [Procedure::Balance, Procedure::Post] {
        same(rt, add_relation(tx, &relation(procedure)), Ok(()));
        same(rt, add_triple(tx, &triple(procedure)), Ok(()));
    }
}

fn member_row(place: u32, kind: Kind) -> MemberRow {
    MemberRow {
        set: 2,
        place,
        member: member(kind),
    }
}

fn member(kind: Kind) -> Member {
    Member {
        kind,
        low: 101,
        high: 102,
    }
}

fn relation(procedure: Procedure) -> Relation {
    Relation {
        procedure,
        set: 2,
        by: 3,
    }
}

fn triple(procedure: Procedure) -> Triple {
    Triple {
        user: 7,
        procedure,
        set: 2,
        limit: 500,
        first: 800,
        last: MAX_MOMENT,
    }
}

#[test]
fn a_relation_goes_with_its_triples(rt: HostRuntime) {
    let mut conn = empty_tables(rt.alloc(), &rt);
    assert!(rt; conn.is_autocommit());
    let mut tx = conn.transaction();
    write_policy(&rt, &mut tx);
    let key = RelationKey {
        procedure: Procedure::Post,
        set: 2,
    };
    let other = triple(Procedure::Balance);
    same(&rt, remove_relation(&mut tx, &key), Ok(()));
    same(&rt, relation_of(&mut tx, Procedure::Post, 2), Ok(None));
    same(&rt, triple_of(&mut tx, 7, Procedure::Post, 2), Ok(None));
    same(
        &rt,
        triple_of(&mut tx, 7, Procedure::Balance, 2),
        Ok(Some(other)),
    );
    same(
        &rt,
        add_triple(&mut tx, &triple(Procedure::Post)),
        Err(Fault::Disk),
    );
}
