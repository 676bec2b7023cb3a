//! The statements that read the tables of the policy in order of key.

ghost use Rattle.std.specs.Prelude.{◌≡◌, ℤ, Option, map, IfOk};
ghost use Rattle.std.specs.List.{filter};
ghost use Rattle.sqlite.specs.Held.{state};
ghost use Rattle.sqlite.specs.State.{HasCleanDisk};
ghost use Rattle.book_kept.specs.Sheets.{Sheets};
ghost use Rattle.sql_schema.specs.Held.{HoldsTables};
ghost use Rattle.sql_schema.specs.Steps.{Reads};
ghost use Rattle.sql_listing.specs.Columns.{at_most, is_past, part_of};
ghost use Rattle.sql_listing.specs.Lines.{cells_of, line_of, rows_of};
ghost use Rattle.sql_listing.specs.declared.columns.Columns.{Columns};
ghost use Rattle.sql_listing.specs.declared.kinds.LineKind.TheVariants as kind;

use crate::kinds::LineKind;
use crate::parts::Part;
use money::Fault;
use sql_schema::{
    plain_rows, select_certifiers, select_members, select_relations, select_triples, select_users,
};
use sqlite::{Alter, Row, Transaction, params};

fn select_users<S: Alter>(tx: &mut Transaction<'_, S>, part: &Part) -> Result<Vec<Row>, Fault>
    ensures reads { Reads S.Store tx.old.conn tx.new.conn result }
    ensures rows { HasCleanDisk (state S.Store tx.new.conn.now) → (s : Sheets) → HoldsTables (state S.Store tx.old.conn.now).now s → (after : Option Columns) (count : ℤ) → part.now ≡ part_of after count
        → IfOk result (λ rows. rows.items ≡ at_most count (map (cells_of kind.User) (filter (λ r. is_past after (line_of kind.User r)) (rows_of s kind.User)))) }
{
    plain_rows(
        tx,
        select_users!("WHERE user_no > ?1 ORDER BY user_no LIMIT ?2"),
        params![&part.first, &part.count],
    )
}

fn select_certifiers<S: Alter>(tx: &mut Transaction<'_, S>, part: &Part) -> Result<Vec<Row>, Fault>
    ensures reads { Reads S.Store tx.old.conn tx.new.conn result }
    ensures rows { HasCleanDisk (state S.Store tx.new.conn.now) → (s : Sheets) → HoldsTables (state S.Store tx.old.conn.now).now s → (after : Option Columns) (count : ℤ) → part.now ≡ part_of after count
        → IfOk result (λ rows. rows.items ≡ at_most count (map (cells_of kind.Certifier) (filter (λ r. is_past after (line_of kind.Certifier r)) (rows_of s kind.Certifier)))) }
{
    plain_rows(
        tx,
        select_certifiers!(
            "WHERE user_no >= ?1 AND (user_no > ?1 OR (user_no = ?1 AND procedure > ?2)) ORDER BY user_no, procedure LIMIT ?3"
        ),
        params![&part.first, part.second, &part.count],
    )
}

fn select_members<S: Alter>(tx: &mut Transaction<'_, S>, part: &Part) -> Result<Vec<Row>, Fault>
    ensures reads { Reads S.Store tx.old.conn tx.new.conn result }
    ensures rows { HasCleanDisk (state S.Store tx.new.conn.now) → (s : Sheets) → HoldsTables (state S.Store tx.old.conn.now).now s → (after : Option Columns) (count : ℤ) → part.now ≡ part_of after count
        → IfOk result (λ rows. rows.items ≡ at_most count (map (cells_of kind.Member) (filter (λ r. is_past after (line_of kind.Member r)) (rows_of s kind.Member)))) }
{
    plain_rows(
        tx,
        select_members!(
            "WHERE set_no >= ?1 AND (set_no > ?1 OR (set_no = ?1 AND place > ?2)) ORDER BY set_no, place LIMIT ?3"
        ),
        params![&part.first, part.second, &part.count],
    )
}

fn select_relations<S: Alter>(tx: &mut Transaction<'_, S>, part: &Part) -> Result<Vec<Row>, Fault>
    ensures reads { Reads S.Store tx.old.conn tx.new.conn result }
    ensures rows { HasCleanDisk (state S.Store tx.new.conn.now) → (s : Sheets) → HoldsTables (state S.Store tx.old.conn.now).now s → (after : Option Columns) (count : ℤ) → part.now ≡ part_of after count
        → IfOk result (λ rows. rows.items ≡ at_most count (map (cells_of kind.Relation) (filter (λ r. is_past after (line_of kind.Relation r)) (rows_of s kind.Relation)))) }
{
    plain_rows(
        tx,
        select_relations!(
            "WHERE procedure >= ?1 AND (procedure > ?1 OR (procedure = ?1 AND set_no > ?2)) ORDER BY procedure, set_no LIMIT ?3"
        ),
        params![&part.first, part.second, &part.count],
    )
}

fn select_triples<S: Alter>(tx: &mut Transaction<'_, S>, part: &Part) -> Result<Vec<Row>, Fault>
    ensures reads { Reads S.Store tx.old.conn tx.new.conn result }
    ensures rows { HasCleanDisk (state S.Store tx.new.conn.now) → (s : Sheets) → HoldsTables (state S.Store tx.old.conn.now).now s → (after : Option Columns) (count : ℤ) → part.now ≡ part_of after count
        → IfOk result (λ rows. rows.items ≡ at_most count (map (cells_of kind.Triple) (filter (λ r. is_past after (line_of kind.Triple r)) (rows_of s kind.Triple)))) }
{
    plain_rows(
        tx,
        select_triples!(
            "WHERE user_no >= ?1 AND (user_no > ?1 OR (user_no = ?1 AND (procedure > ?2 OR (procedure = ?2 AND set_no > ?3)))) ORDER BY user_no, procedure, set_no LIMIT ?4"
        ),
        params![&part.first, part.second, part.third, &part.count],
    )
}

/// The rows of this kind in this part of their table, in order of key.
pub(crate) fn select_lines<S: Alter>(
    tx: &mut Transaction<'_, S>,
    kind: LineKind,
    part: &Part,
) -> Result<Vec<Row>, Fault>
    ensures reads { Reads S.Store tx.old.conn tx.new.conn result }
    ensures rows { HasCleanDisk (state S.Store tx.new.conn.now) → (s : Sheets) → HoldsTables (state S.Store tx.old.conn.now).now s → (after : Option Columns) (count : ℤ) → part.now ≡ part_of after count
        → IfOk result (λ rows. rows.items ≡ at_most count (map (cells_of kind) (filter (λ r. is_past after (line_of kind r)) (rows_of s kind)))) }
{
    match kind {
        LineKind::User => select_users(tx, part),
        LineKind::Certifier => select_certifiers(tx, part),
        LineKind::Member => select_members(tx, part),
        LineKind::Relation => select_relations(tx, part),
        LineKind::Triple => select_triples(tx, part),
    }
}
