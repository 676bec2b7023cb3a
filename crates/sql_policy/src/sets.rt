//! The sets that are defined, by number, in their table; their members are in a table of their own.

ghost use Rattle.std.specs.Prelude.{◌≡◌, ◌==◌, length, map};
ghost use Rattle.std.specs.List.{filter, list_any};
ghost use Rattle.sqlite.specs.Held.{state};
ghost use Rattle.keyed_rows.specs.Ordered.{add_row};
ghost use Rattle.book_kept.specs.Named.{IsFree};
ghost use Rattle.sql_schema.specs.Steps.{FindsHeld, Frame, Reads, RunsInside, Step, Tells};
ghost use Rattle.sql_schema.specs.Held.{set_no};
ghost use Rattle.sql_schema.specs.Shown.{shown_set};
ghost use Rattle.sql_policy.specs.Texts.{add_set_text};

use money::Fault;
use sql_schema::{plain_rows, run, select_sets};
use sqlite::{Alter, Row, Transaction, params};

/// The row of this set: one, or none.
fn select_set<S: Alter>(tx: &mut Transaction<'_, S>, set: u32) -> Result<Vec<Row>, Fault>
    ensures reads { Reads S.Store tx.old.conn tx.new.conn result }
    ensures rows { FindsHeld (state S.Store tx.old.conn.now) (state S.Store tx.new.conn.now) result (λ s rows. rows.items ≡ map shown_set (filter (λ n. n == set) s.sets)) }
{
    plain_rows(tx, select_sets!("WHERE set_no = ?1"), params![set])
}

/// The rows of all sets, by number.
fn select_sets<S: Alter>(tx: &mut Transaction<'_, S>) -> Result<Vec<Row>, Fault>
    ensures reads { Reads S.Store tx.old.conn tx.new.conn result }
    ensures rows { FindsHeld (state S.Store tx.old.conn.now) (state S.Store tx.new.conn.now) result (λ s rows. length rows.items ≡ length s.sets) }
{
    plain_rows(tx, select_sets!("ORDER BY set_no"), &[])
}

/// Whether a set of this number is defined.
pub fn is_set<S: Alter>(tx: &mut Transaction<'_, S>, set: u32) -> Result<bool, Fault>
    ensures reads { Reads S.Store tx.old.conn tx.new.conn result }
    ensures found { FindsHeld (state S.Store tx.old.conn.now) (state S.Store tx.new.conn.now) result (λ s there. there ≡ list_any (λ n. n == set) s.sets) }
{
    let rows = select_set(tx, set)?;
    Ok(!rows.is_empty())
}

/// How many sets are defined.
pub fn set_count<S: Alter>(tx: &mut Transaction<'_, S>) -> Result<u64, Fault>
    ensures reads { Reads S.Store tx.old.conn tx.new.conn result }
    ensures found { FindsHeld (state S.Store tx.old.conn.now) (state S.Store tx.new.conn.now) result (λ s count. count ≡ length s.sets) }
{
    let rows = select_sets(tx)?;
    Ok(rows.len() as u64)
}

fn insert_set<S: Alter>(tx: &mut Transaction<'_, S>, set: u32) -> Result<usize, Fault>
    ensures frame { Frame S.Store tx.old.conn tx.new.conn }
    ensures runs { RunsInside add_set_text (shown_set set) (state S.Store tx.old.conn.now) (state S.Store tx.new.conn.now) result }
{
    run(tx, "INSERT INTO sets (set_no) VALUES (?1)", params![set])
}

/// Adds a set of this number, without its members. One that is there already is a fault of the disk.
pub fn add_set<S: Alter>(tx: &mut Transaction<'_, S>, set: u32) -> Result<(), Fault>
    ensures step { Step S.Store tx.old.conn tx.new.conn (λ s. record s { sets = add_row set_no set s.sets }) result }
    ensures free { Tells (state S.Store tx.old.conn.now) (state S.Store tx.new.conn.now) (λ s. IsFree set_no s.sets set) result }
{
    insert_set(tx, set)?;
    Ok(())
}
