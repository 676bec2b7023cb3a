//! The line of the policy that follows another.

ghost use Rattle.std.specs.Prelude.{◌≡◌};
ghost use Rattle.std.specs.List.{find};
ghost use Rattle.sqlite.specs.Held.{state};
ghost use Rattle.sql_schema.specs.Steps.{FindsHeld, FindsHeldInside, Reads};
ghost use Rattle.world_reads.specs.PolicyListing.{is_row_after};
ghost use Rattle.sql_listing.specs.Columns.{is_past, or_first};
ghost use Rattle.sql_listing.specs.Lines.{lines_after, lines_in, lines_of};

use crate::columns::{Columns, key_columns, key_kind};
use crate::kinds::LineKind;
use crate::parts::next_after;
use crate::read::read_line;
use crate::selects::select_lines;
use money::Fault;
use sqlite::{Alter, Transaction};
use std::alloc::Global;
use world_reads::{PolicyKey, PolicyRow};

/// The first line of this kind after these columns, or the first of all.
fn next_line<S: Alter>(
    alloc: Global,
    tx: &mut Transaction<'_, S>,
    kind: LineKind,
    after: Option<Columns>,
) -> Result<Option<PolicyRow>, Fault>
    ensures reads { Reads S.Store tx.old.conn tx.new.conn result }
    ensures found { FindsHeld (state S.Store tx.old.conn.now) (state S.Store tx.new.conn.now) result (λ s line. line ≡ find (is_past after) (lines_in s kind)) }
{
    let part = next_after(after);
    let rows = select_lines(tx, kind, &part)?;
    match rows.first() {
        Some(row) => Ok(Some(read_line(alloc, kind, row)?)),
        None => Ok(None),
    }
}

/// The first line of this kind after these columns, or else the first of the kinds that follow it.
fn next_from<S: Alter>(
    alloc: Global,
    tx: &mut Transaction<'_, S>,
    kind: LineKind,
    after: Option<Columns>,
) -> Result<Option<PolicyRow>, Fault>
    ensures reads { Reads S.Store tx.old.conn tx.new.conn result }
    ensures found { FindsHeldInside (state S.Store tx.old.conn.now) (state S.Store tx.new.conn.now) result (λ s line. line ≡ or_first (find (is_past after) (lines_in s kind)) (lines_after s kind)) }
{
    match next_line(alloc, tx, kind, after)? {
        Some(line) => Ok(Some(line)),
        None => match kind.following() {
            Some(next) => next_from(alloc, tx, next, None),
            None => Ok(None),
        },
    }
}

/// The first line of the policy that is listed after this key, or the first of all where no key is
/// given; none where no line is listed there.
pub fn next_policy<S: Alter>(
    alloc: Global,
    tx: &mut Transaction<'_, S>,
    after: Option<PolicyKey>,
) -> Result<Option<PolicyRow>, Fault>
    ensures reads { Reads S.Store tx.old.conn tx.new.conn result }
    ensures found { FindsHeldInside (state S.Store tx.old.conn.now) (state S.Store tx.new.conn.now) result (λ s line. line ≡ find (is_row_after after) (lines_of s)) }
{
    match after {
        Some(key) => next_from(alloc, tx, key_kind(key), Some(key_columns(key))),
        None => next_from(alloc, tx, LineKind::User, None),
    }
}
