//! The triples of users, procedures and sets in their table, with their moments and limits.

ghost use Rattle.std.specs.Prelude.{◌≡◌, ◌==◌, ◌^◌, ◌<◌, ◌≤◌, ◌⊎◌, ◌∷◌, [], length, pos, IfErr, IfOk};
ghost use Rattle.std.specs.List.{filter, find};
ghost use Rattle.money.specs.declared.fault.Fault.TheVariants.{Size};
ghost use Rattle.sqlite.specs.Held.{state};
ghost use Rattle.sqlite.specs.declared.types.Value.TheVariants.{Int};
ghost use Rattle.keyed_rows.specs.Changed.{delete_rows};
ghost use Rattle.keyed_rows.specs.Ordered.{add_row};
ghost use Rattle.book_kept.specs.Named.{IsFree};
ghost use Rattle.sql_schema.specs.Steps.{FindsHeld, Frame, Reads, RunsInside, Step, Tells};
ghost use Rattle.bank_policy.specs.HeldRows.{is_triple_of};
ghost use Rattle.bank_policy.specs.PolicyKeys.{triple_key, triple_number};
ghost use Rattle.sql_schema.specs.Cells.{TripleFits, triple_cells};
ghost use Rattle.sql_policy.specs.Given.{given_triple};
ghost use Rattle.sql_policy.specs.Tests.{is_triple_by};
ghost use Rattle.sql_policy.specs.Texts.{add_triple_text, remove_triple_text};

use bank_policy::{Triple, TripleKey};
use bank_terms::Procedure;
use money::Fault;
use sql_schema::{count_cell, listed, picked, plain_rows, run, select_triples};
use sqlite::{Alter, Row, Transaction, params};

/// The rows of the user, by procedure and set.
fn select_user_triples<S: Alter>(tx: &mut Transaction<'_, S>, user: u32) -> Result<Vec<Row>, Fault>
    ensures reads { Reads S.Store tx.old.conn tx.new.conn result }
    ensures rows { FindsHeld (state S.Store tx.old.conn.now) (state S.Store tx.new.conn.now) result (λ s rows. length rows.items ≡ length (filter (is_triple_by user) s.triples)) }
{
    plain_rows(
        tx,
        select_triples!("WHERE user_no = ?1 ORDER BY procedure, set_no"),
        params![user],
    )
}

/// The triple of this user, this procedure and this set, if it is there.
pub fn triple_of<S: Alter>(
    tx: &mut Transaction<'_, S>,
    user: u32,
    procedure: Procedure,
    set: u32,
) -> Result<Option<Triple>, Fault>
    ensures reads { Reads S.Store tx.old.conn tx.new.conn result }
    ensures found { FindsHeld (state S.Store tx.old.conn.now) (state S.Store tx.new.conn.now) result (λ s found. found ≡ find (λ r. triple_key r == triple_number user procedure set) s.triples) }
{
    picked(
        tx,
        select_triples!("WHERE user_no = ?1 AND procedure = ?2 AND set_no = ?3"),
        params![user, procedure.number() as u32, set],
    )
}

/// The triples of this user for this procedure, by set.
pub fn triples_in<S: Alter>(
    tx: &mut Transaction<'_, S>,
    user: u32,
    procedure: Procedure,
) -> Result<Vec<Triple>, Fault>
    ensures reads { Reads S.Store tx.old.conn tx.new.conn result }
    ensures found { FindsHeld (state S.Store tx.old.conn.now) (state S.Store tx.new.conn.now) result (λ s list. list.items ≡ filter (is_triple_of user procedure) s.triples) }
{
    listed(
        tx,
        select_triples!("WHERE user_no = ?1 AND procedure = ?2 ORDER BY set_no"),
        params![user, procedure.number() as u32],
    )
}

/// How many triples the user has.
pub fn triple_count<S: Alter>(tx: &mut Transaction<'_, S>, user: u32) -> Result<u64, Fault>
    ensures reads { Reads S.Store tx.old.conn tx.new.conn result }
    ensures found { FindsHeld (state S.Store tx.old.conn.now) (state S.Store tx.new.conn.now) result (λ s count. count ≡ length (filter (is_triple_by user) s.triples)) }
{
    let rows = select_user_triples(tx, user)?;
    Ok(rows.len() as u64)
}

/// What is given with the statement that adds a triple.
#[derive(Drop)]
struct TripleCells {
    user: u32,
    procedure: u32,
    set: u32,
    limit: u32,
    first: i64,
    last: i64,
}

fn cells_of(triple: &Triple) -> Result<TripleCells, Fault>
    ensures cells { IfOk result (λ c. given_triple c ≡ triple_cells triple.now) }
    ensures err { IfErr result (λ fault. (fault ≡ Size) × ((2 ^ 63 ≤ triple.now.first) ⊎ (2 ^ 63 ≤ triple.now.last))) }
    ensures fits { IfOk result (λ _. TripleFits triple.now) }
{
    let set = triple.set;
    Ok(TripleCells {
        user: triple.user,
        procedure: triple.procedure.number() as u32,
        set,
        limit: triple.limit,
        first: count_cell(triple.first)?,
        last: count_cell(triple.last)?,
    })
}

fn insert_triple<S: Alter>(tx: &mut Transaction<'_, S>, cells: &TripleCells) -> Result<usize, Fault>
    ensures frame { Frame S.Store tx.old.conn tx.new.conn }
    ensures runs { RunsInside add_triple_text (given_triple cells.now) (state S.Store tx.old.conn.now) (state S.Store tx.new.conn.now) result }
{
    run(
        tx,
        "INSERT INTO grants (user_no, procedure, set_no, ceiling, first_at, last_at) VALUES (?1, ?2, ?3, ?4, ?5, ?6)",
        params![
            cells.user,
            cells.procedure,
            cells.set,
            cells.limit,
            &cells.first,
            &cells.last
        ],
    )
}

/// Adds a triple. One of its key that is there already is a fault of the disk, and so is one of no relation. A moment of more than 63 bits is a fault of size.
pub fn add_triple<S: Alter>(tx: &mut Transaction<'_, S>, triple: &Triple) -> Result<(), Fault>
    ensures step { Step S.Store tx.old.conn tx.new.conn (λ s. record s { triples = add_row triple_key triple.now s.triples }) result }
    ensures free { Tells (state S.Store tx.old.conn.now) (state S.Store tx.new.conn.now) (λ s. IsFree triple_key s.triples (triple_key triple.now)) result }
{
    let cells = cells_of(triple)?;
    insert_triple(tx, &cells)?;
    Ok(())
}

fn delete_triple<S: Alter>(
    tx: &mut Transaction<'_, S>,
    key: &TripleKey,
    procedure: u32,
) -> Result<usize, Fault>
    ensures frame { Frame S.Store tx.old.conn tx.new.conn }
    ensures runs { RunsInside remove_triple_text (Int (pos key.now.user) ∷ Int (pos procedure) ∷ Int (pos key.now.set) ∷ []) (state S.Store tx.old.conn.now) (state S.Store tx.new.conn.now) result }
    ensures small { key.now.set < 2 ^ 32 }
{
    run(
        tx,
        "DELETE FROM grants WHERE user_no = ?1 AND procedure = ?2 AND set_no = ?3",
        params![key.user, procedure, key.set],
    )
}

/// Takes a triple away. One that isn't there is passed over.
pub fn remove_triple<S: Alter>(tx: &mut Transaction<'_, S>, key: &TripleKey) -> Result<(), Fault>
    ensures step { Step S.Store tx.old.conn tx.new.conn (λ s. record s { triples = delete_rows triple_key (triple_number key.now.user key.now.procedure key.now.set) s.triples }) result }
{
    let procedure = key.procedure.number() as u32;
    delete_triple(tx, key, procedure)?;
    Ok(())
}
