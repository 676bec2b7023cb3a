//! The triples of a user and the relations of a procedure, read together with the members of their sets.

ghost use Rattle.std.specs.Prelude.{◌≡◌, map};
ghost use Rattle.std.specs.List.{filter};
ghost use Rattle.sqlite.specs.Held.{state};
ghost use Rattle.bank_policy.specs.HeldRows.{is_relation_of, is_triple_of};
ghost use Rattle.sql_schema.specs.Steps.{FindsHeld, FindsHeldInside, Reads, Step};
ghost use Rattle.sql_policy.specs.HeldRows.{certified_in, held_in};

use crate::members::members_of;
use crate::relations::relations_in;
use crate::triples::triples_in;
use bank_policy::{CertifiedRow, HeldRow, Relation, Triple};
use bank_terms::Procedure;
use money::Fault;
use sqlite::{Alter, Transaction};
use std::alloc::Global;

/// The triple with the members of its set.
fn held_row<S: Alter>(
    alloc: Global,
    tx: &mut Transaction<'_, S>,
    triple: &Triple,
) -> Result<HeldRow, Fault>
    ensures reads { Reads S.Store tx.old.conn tx.new.conn result }
    ensures found { FindsHeld (state S.Store tx.old.conn.now) (state S.Store tx.new.conn.now) result (λ s row. row ≡ held_in s triple.now) }
{
    let members = members_of(alloc, tx, triple.set)?;
    Ok(HeldRow::new(*triple, members))
}

/// These triples, each with the members of its set.
fn held_rows<S: Alter>(
    alloc: Global,
    tx: &mut Transaction<'_, S>,
    triples: &[Triple],
) -> Result<Vec<HeldRow>, Fault>
    ensures step { Step S.Store tx.old.conn tx.new.conn (λ s. s) result }
    ensures found { FindsHeldInside (state S.Store tx.old.conn.now) (state S.Store tx.new.conn.now) result (λ s rows. rows.items ≡ map (held_in s) triples.now) }
{
    let mut rows = Vec::new(alloc);
    for triple in triples {
        rows.push(held_row(alloc, tx, triple)?)?;
    }
    Ok(rows)
}

/// The triples of this user for this procedure, each with the members of its set, by set.
pub fn triples_of<S: Alter>(
    alloc: Global,
    tx: &mut Transaction<'_, S>,
    user: u32,
    procedure: Procedure,
) -> Result<Vec<HeldRow>, Fault>
    ensures reads { Reads S.Store tx.old.conn tx.new.conn result }
    ensures found { FindsHeldInside (state S.Store tx.old.conn.now) (state S.Store tx.new.conn.now) result (λ s rows. rows.items ≡ map (held_in s) (filter (is_triple_of user procedure) s.triples)) }
{
    let triples = triples_in(tx, user, procedure)?;
    held_rows(alloc, tx, &triples)
}

/// The relation with the members of its set.
fn certified_row<S: Alter>(
    alloc: Global,
    tx: &mut Transaction<'_, S>,
    relation: &Relation,
) -> Result<CertifiedRow, Fault>
    ensures reads { Reads S.Store tx.old.conn tx.new.conn result }
    ensures found { FindsHeld (state S.Store tx.old.conn.now) (state S.Store tx.new.conn.now) result (λ s row. row ≡ certified_in s relation.now) }
{
    let members = members_of(alloc, tx, relation.set)?;
    Ok(CertifiedRow::new(*relation, members))
}

/// These relations, each with the members of its set.
fn certified_rows<S: Alter>(
    alloc: Global,
    tx: &mut Transaction<'_, S>,
    relations: &[Relation],
) -> Result<Vec<CertifiedRow>, Fault>
    ensures step { Step S.Store tx.old.conn tx.new.conn (λ s. s) result }
    ensures found { FindsHeldInside (state S.Store tx.old.conn.now) (state S.Store tx.new.conn.now) result (λ s rows. rows.items ≡ map (certified_in s) relations.now) }
{
    let mut rows = Vec::new(alloc);
    for relation in relations {
        rows.push(certified_row(alloc, tx, relation)?)?;
    }
    Ok(rows)
}

/// The relations of this procedure, each with the members of its set, by set.
pub fn relations_of<S: Alter>(
    alloc: Global,
    tx: &mut Transaction<'_, S>,
    procedure: Procedure,
) -> Result<Vec<CertifiedRow>, Fault>
    ensures reads { Reads S.Store tx.old.conn tx.new.conn result }
    ensures found { FindsHeldInside (state S.Store tx.old.conn.now) (state S.Store tx.new.conn.now) result (λ s rows. rows.items ≡ map (certified_in s) (filter (is_relation_of procedure) s.relations)) }
{
    let relations = relations_in(tx, procedure)?;
    certified_rows(alloc, tx, &relations)
}
