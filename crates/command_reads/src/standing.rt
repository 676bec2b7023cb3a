//! Whether a user may ask for anything, as their row of the policy says.

ghost use Rattle.std.specs.Prelude.{◌≡◌};
ghost use Rattle.bank_policy.specs.HeldRows.{standing};
ghost use Rattle.store_rows.specs.Status.{ReadsRow};

use bank_policy::Standing;
use money::Fault;
use std::alloc::Global;
use store_rows::PolicyReads;

/// What the row of a user says of whether they may ask, or none where there is no such user.
pub fn standing_of<P: PolicyReads>(
    alloc: Global,
    store: &mut P,
    user: u32,
) -> Result<Option<Standing>, Fault>
    ensures { ReadsRow (P.status store.old) (P.status store.new) result (λ w row. row ≡ standing w.policy user) }
{
    let row = store.user(alloc, user)?;
    Ok(row.map(|row| row.standing))
}
