//! The listing of the policy: its next line, read from a store.

ghost use Rattle.std.specs.Prelude.{◌≤◌, IfOk, IfSome};
ghost use Rattle.arrayvec.specs.ArrayVec.{array_vec_len};
ghost use Rattle.store_rows.specs.Status.{MayRead, mark_of};
ghost use Rattle.reports.specs.Cause.{CountsWhere};
ghost use Rattle.reports.specs.Room.{HasRoom};
ghost use Rattle.reports.specs.Step.{IsNext};

use crate::listing::{Listed, Listing};
use money::Fault;
use report_lines::policy_line;
use std::alloc::Global;
use store_rows::ReportReads;
use world_reads::PolicyKey;

/// The line of the next row of the policy. No line has room for a name that is too long.
pub(crate) fn next_row<S: ReportReads>(
    alloc: Global,
    store: &mut S,
    after: Option<PolicyKey>,
) -> Result<Option<Listed>, Fault>
    ensures read { MayRead (S.status store.old) (S.status store.new) result (IsNext (Listing.Policy after)) }
    ensures cause { CountsWhere (S.status store.old) (S.status store.new) (mark_of result) (λ w. HasRoom w (Listing.Policy after)) }
    ensures short { IfOk result (λ next. IfSome next (λ listed. array_vec_len listed.line ≤ 256)) }
{
    let Some(row) = store.next_policy(alloc, after)? else {
        return Ok(None);
    };
    let Some(line) = policy_line(&row) else {
        return Err(Fault::Memory);
    };
    Ok(Some(Listed {
        line,
        rest: Listing::Policy(Some(row.key())),
    }))
}
