//! The relations of procedures and sets in their table. Deleting one deletes the triples that rest on it.

ghost use Rattle.std.specs.Prelude.{◌≡◌, ◌==◌, ◌^◌, ◌<◌, ◌∷◌, [], pos, not};
ghost use Rattle.std.specs.List.{filter, find};
ghost use Rattle.sqlite.specs.Held.{state};
ghost use Rattle.sqlite.specs.declared.types.Value.TheVariants.{Int};
ghost use Rattle.keyed_rows.specs.Changed.{delete_rows};
ghost use Rattle.keyed_rows.specs.Ordered.{add_row};
ghost use Rattle.book_kept.specs.Named.{IsFree};
ghost use Rattle.sql_schema.specs.Steps.{FindsHeld, Frame, Reads, RunsInside, Step, Tells};
ghost use Rattle.bank_policy.specs.HeldRows.{is_relation_of};
ghost use Rattle.bank_policy.specs.PolicyKeys.{relation_key, relation_number};
ghost use Rattle.bank_policy.specs.PolicyWrites.{is_triple_on};
ghost use Rattle.sql_policy.specs.Texts.{add_relation_text, remove_relation_text};

use bank_policy::{Relation, RelationKey};
use bank_terms::Procedure;
use money::Fault;
use sql_schema::{listed, picked, run, select_relations};
use sqlite::{Alter, Transaction, params};

/// The relation of this procedure on this set, if it is there.
pub fn relation_of<S: Alter>(
    tx: &mut Transaction<'_, S>,
    procedure: Procedure,
    set: u32,
) -> Result<Option<Relation>, Fault>
    ensures reads { Reads S.Store tx.old.conn tx.new.conn result }
    ensures found { FindsHeld (state S.Store tx.old.conn.now) (state S.Store tx.new.conn.now) result (λ s found. found ≡ find (λ r. relation_key r == relation_number procedure set) s.relations) }
{
    picked(
        tx,
        select_relations!("WHERE procedure = ?1 AND set_no = ?2"),
        params![procedure.number() as u32, set],
    )
}

/// The relations of this procedure, by set.
pub fn relations_in<S: Alter>(
    tx: &mut Transaction<'_, S>,
    procedure: Procedure,
) -> Result<Vec<Relation>, Fault>
    ensures reads { Reads S.Store tx.old.conn tx.new.conn result }
    ensures found { FindsHeld (state S.Store tx.old.conn.now) (state S.Store tx.new.conn.now) result (λ s list. list.items ≡ filter (is_relation_of procedure) s.relations) }
{
    listed(
        tx,
        select_relations!("WHERE procedure = ?1 ORDER BY set_no"),
        params![procedure.number() as u32],
    )
}

fn insert_relation<S: Alter>(
    tx: &mut Transaction<'_, S>,
    relation: &Relation,
    procedure: u32,
) -> Result<usize, Fault>
    ensures frame { Frame S.Store tx.old.conn tx.new.conn }
    ensures runs { RunsInside add_relation_text (Int (pos procedure) ∷ Int (pos relation.now.set) ∷ Int (pos relation.now.by) ∷ []) (state S.Store tx.old.conn.now) (state S.Store tx.new.conn.now) result }
    ensures small { relation.now.set < 2 ^ 32 }
{
    run(
        tx,
        "INSERT INTO relations (procedure, set_no, by_user) VALUES (?1, ?2, ?3)",
        params![procedure, relation.set, relation.by],
    )
}

/// Adds a relation. One of its key that is there already is a fault of the disk.
pub fn add_relation<S: Alter>(tx: &mut Transaction<'_, S>, relation: &Relation) -> Result<(), Fault>
    ensures step { Step S.Store tx.old.conn tx.new.conn (λ s. record s { relations = add_row relation_key relation.now s.relations }) result }
    ensures free { Tells (state S.Store tx.old.conn.now) (state S.Store tx.new.conn.now) (λ s. IsFree relation_key s.relations (relation_key relation.now)) result }
{
    let procedure = relation.procedure.number() as u32;
    insert_relation(tx, relation, procedure)?;
    Ok(())
}

fn delete_relation<S: Alter>(
    tx: &mut Transaction<'_, S>,
    key: &RelationKey,
    procedure: u32,
) -> Result<usize, Fault>
    ensures frame { Frame S.Store tx.old.conn tx.new.conn }
    ensures runs { RunsInside remove_relation_text (Int (pos procedure) ∷ Int (pos key.now.set) ∷ []) (state S.Store tx.old.conn.now) (state S.Store tx.new.conn.now) result }
    ensures small { key.now.set < 2 ^ 32 }
{
    run(
        tx,
        "DELETE FROM relations WHERE procedure = ?1 AND set_no = ?2",
        params![procedure, key.set],
    )
}

/// Takes a relation away, and with it its triples, whosever they are. One that isn't there is passed over.
pub fn remove_relation<S: Alter>(
    tx: &mut Transaction<'_, S>,
    key: &RelationKey,
) -> Result<(), Fault>
    ensures step { Step S.Store tx.old.conn tx.new.conn (λ s. record s { relations = delete_rows relation_key (relation_number key.now.procedure key.now.set) s.relations; triples = filter (λ row. not (is_triple_on key.now row)) s.triples }) result }
{
    let procedure = key.procedure.number() as u32;
    delete_relation(tx, key, procedure)?;
    Ok(())
}
