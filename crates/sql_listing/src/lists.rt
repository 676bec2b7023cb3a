//! All lines of the policy.

ghost use Rattle.std.specs.Prelude.{◌≡◌, ◌++◌, IsTrue, OnOk};
ghost use Rattle.sqlite.specs.Held.{state};
ghost use Rattle.sqlite.specs.State.{HasCleanDisk};
ghost use Rattle.book_kept.specs.Sheets.{Sheets};
ghost use Rattle.sql_schema.specs.Held.{HoldsTables};
ghost use Rattle.sql_schema.specs.Steps.{FindsHeldInside, Reads};
ghost use Rattle.sql_listing.specs.Lines.{lines_from, lines_in, lines_of};

use crate::kinds::LineKind;
use crate::parts::whole;
use crate::read::read_lines;
use crate::selects::select_lines;
use money::Fault;
use sqlite::{Alter, Transaction};
use std::alloc::Global;
use world_reads::PolicyRow;

/// Adds the lines of this kind.
fn add_lines<S: Alter>(
    alloc: Global,
    tx: &mut Transaction<'_, S>,
    kind: LineKind,
    lines: &mut Vec<PolicyRow>,
) -> Result<(), Fault>
    ensures reads { Reads S.Store tx.old.conn tx.new.conn result }
    ensures found { HasCleanDisk (state S.Store tx.new.conn.now) → (s : Sheets) → HoldsTables (state S.Store tx.old.conn.now).now s → OnOk result (lines.new.items ≡ lines.old.items ++ lines_in s kind) }
{
    let part = whole();
    let rows = select_lines(tx, kind, &part)?;
    read_lines(alloc, kind, &rows, lines)
}

/// Adds the lines of this kind and of those that follow it.
fn add_from<S: Alter>(
    alloc: Global,
    tx: &mut Transaction<'_, S>,
    kind: LineKind,
    lines: &mut Vec<PolicyRow>,
) -> Result<(), Fault>
    ensures reads { Reads S.Store tx.old.conn tx.new.conn result }
    ensures found { HasCleanDisk (state S.Store tx.new.conn.now) → IsTrue (state S.Store tx.old.conn.now).in_transaction → (s : Sheets) → HoldsTables (state S.Store tx.old.conn.now).now s → OnOk result (lines.new.items ≡ lines.old.items ++ lines_from s kind) }
{
    add_lines(alloc, tx, kind, lines)?;
    match kind.following() {
        Some(next) => add_from(alloc, tx, next, lines),
        None => Ok(()),
    }
}

/// All lines of the policy: users by number, certifiers by user and procedure, members by set and
/// place, relations by procedure and set, and triples by user, procedure and set.
pub fn policy_rows<S: Alter>(
    alloc: Global,
    tx: &mut Transaction<'_, S>,
) -> Result<Vec<PolicyRow>, Fault>
    ensures reads { Reads S.Store tx.old.conn tx.new.conn result }
    ensures found { FindsHeldInside (state S.Store tx.old.conn.now) (state S.Store tx.new.conn.now) result (λ s rows. rows.items ≡ lines_of s) }
{
    let mut lines = Vec::new(alloc);
    match add_from(alloc, tx, LineKind::User, &mut lines) {
        Ok(()) => Ok(lines),
        Err(fault) => Err(fault),
    }
}
