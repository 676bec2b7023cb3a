//! The statement of an account: where it goes on, and its next line, read from a store.

ghost use Rattle.std.specs.Prelude.{◌≤◌, IfOk, IfSome};
ghost use Rattle.arrayvec.specs.ArrayVec.{array_vec_len};
ghost use Rattle.store_rows.specs.Status.{MayRead, mark_of};
ghost use Rattle.reports.specs.Cause.{CountsWhere};
ghost use Rattle.reports.specs.Room.{HasRoom};
ghost use Rattle.reports.specs.Step.{IsNext};

use crate::listing::{Listed, Listing};
use money::Fault;
use report_lines::entry_line;
use std::alloc::Global;
use store_rows::ReportReads;

/// The entries of an account from a turn on.
#[derive(Clone, Copy, Debug, PartialEq, Eq)]
pub struct FromTurn {
    /// The account.
    pub account: u32,
    /// The turn of the next entry.
    pub turn: u32,
}

/// The line of the next entry of an account. No turn follows the greatest `u32`.
pub(crate) fn next_entry<S: ReportReads>(
    alloc: Global,
    store: &mut S,
    from: FromTurn,
) -> Result<Option<Listed>, Fault>
    ensures read { MayRead (S.status store.old) (S.status store.new) result (IsNext (Listing.Statement from)) }
    ensures cause { CountsWhere (S.status store.old) (S.status store.new) (mark_of result) (λ w. HasRoom w (Listing.Statement from)) }
    ensures short { IfOk result (λ next. IfSome next (λ listed. array_vec_len listed.line ≤ 256)) }
{
    let Some(entry) = store.entry_at(alloc, from.account, from.turn)? else {
        return Ok(None);
    };
    let Some(turn) = from.turn.checked_add(1) else {
        return Err(Fault::Memory);
    };
    Ok(Some(Listed {
        line: entry_line(&entry),
        rest: Listing::Statement(FromTurn {
            account: from.account,
            turn,
        }),
    }))
}
