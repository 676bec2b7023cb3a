//! The list of the accounts that a user is shown: where it goes on, and its next line, read from a store.

ghost use Rattle.std.specs.Prelude.{◌≤◌, IfOk, IfSome};
ghost use Rattle.arrayvec.specs.ArrayVec.{array_vec_len};
ghost use Rattle.store_rows.specs.Status.{MayRead, mark_of};
ghost use Rattle.reports.specs.Cause.{CountsWhere};
ghost use Rattle.reports.specs.Room.{HasRoom};
ghost use Rattle.reports.specs.Step.{IsNext};

use crate::listing::{Listed, Listing};
use money::Fault;
use report_lines::account_line;
use std::alloc::Global;
use store_rows::ReportReads;

/// The accounts above a number that a user is shown at a moment.
#[derive(Clone, Copy, Debug, PartialEq, Eq)]
pub struct AfterAccount {
    /// The user.
    pub user: u32,
    /// The number above which they lie.
    pub after: u32,
    /// The moment at which the user's triples have to be valid, in seconds.
    pub moment: u64,
}

/// The line of the next account that a user is shown.
pub(crate) fn next_account<S: ReportReads>(
    alloc: Global,
    store: &mut S,
    from: AfterAccount,
) -> Result<Option<Listed>, Fault>
    ensures read { MayRead (S.status store.old) (S.status store.new) result (IsNext (Listing.Accounts from)) }
    ensures cause { CountsWhere (S.status store.old) (S.status store.new) (mark_of result) (λ w. HasRoom w (Listing.Accounts from)) }
    ensures short { IfOk result (λ next. IfSome next (λ listed. array_vec_len listed.line ≤ 256)) }
{
    let Some(account) = store.next_shown(alloc, from.user, from.after, from.moment)? else {
        return Ok(None);
    };
    Ok(Some(Listed {
        line: account_line(&account),
        rest: Listing::Accounts(AfterAccount {
            user: from.user,
            after: account.row.account,
            moment: from.moment,
        }),
    }))
}
