//! A release that a request names: what it is judged by, and whether it is valid.

ghost use Rattle.std.specs.Prelude.{◌≡◌, ℕ, option_map};
ghost use Rattle.bank_policy.specs.Tests.{current, is_held_for};
ghost use Rattle.store_rows.specs.Status.{ReadsRow};
ghost use Rattle.bank_meaning.specs.NamedRelease.{counts, is_active, is_giver_for, is_of_today, is_same_operation, release_grounds, release_grounds_of};
ghost use Rattle.decide.specs.NamedRelease.{grounds_of, is_released_by};

use bank_books::Release;
use bank_meaning::Execution;
use bank_policy::{HeldRow, Standing, best_limit};
use bank_terms::{Cdi, OperationRow, Procedure};
use command_reads::standing_of;
use counter_ops::{amount, touches};
use money::Fault;
use std::alloc::Global;
use std::rc::RcSlice;
use store_rows::{BookReads, PolicyReads};

/// All that a release is judged by, where it is there.
#[derive(Drop)]
pub struct NamedRelease {
    /// Its row.
    pub row: Release,
    /// The present day of its branch, or none where the branch isn't there.
    pub today: Option<u32>,
    /// What the row of the user who gave it says of whether they may, or none where there is no such user.
    pub giver: Option<Standing>,
    /// That user's triples for releases.
    pub held: RcSlice<HeldRow>,
}

/// What the release of this number of a user is judged by, or none where it isn't there.
pub(crate) fn load_named_release<S: PolicyReads + BookReads>(
    alloc: Global,
    store: &mut S,
    user: u32,
    number: u32,
) -> Result<Option<NamedRelease>, Fault>
    ensures { ReadsRow (S.status store.old) (S.status store.new) result (λ w named. (moment : ℕ) → option_map (grounds_of moment) named ≡ release_grounds w user number moment) }
{
    match store.release(alloc, user, number)? {
        Some(row) => Ok(Some(load_grounds_of(alloc, store, row)?)),
        None => Ok(None),
    }
}

/// What a release that is there is judged by.
fn load_grounds_of<S: PolicyReads + BookReads>(
    alloc: Global,
    store: &mut S,
    row: Release,
) -> Result<NamedRelease, Fault>
    ensures { ReadsRow (S.status store.old) (S.status store.new) result (λ w named. (moment : ℕ) → grounds_of moment named ≡ release_grounds_of w moment row) }
{
    let branch = store.branch(alloc, row.branch)?;
    let giver = standing_of(alloc, store, row.giver)?;
    let held = store.triples_of(alloc, row.giver, Procedure::Release)?;
    Ok(NamedRelease {
        row,
        today: branch.map(|branch| branch.row.day),
        giver,
        held,
    })
}

/// Whether a release is there and is valid for what is asked for.
pub(crate) fn is_released(named: &Option<NamedRelease>, execution: &Execution) -> bool
    ensures { result ≡ is_released_by named.now execution.now }
{
    let Some(named) = named else {
        return false;
    };
    let user = execution.who.user.unwrap_or(0);
    let operation = execution.op.to_row();
    let items = touches(&execution.op);
    counts(
        named,
        user,
        &operation,
        items.as_slice(),
        amount(&execution.op),
        execution.moment,
    )
}

/// Whether a release is valid for an operation of this user: it is unused, names exactly that
/// operation, is of the present day, and who gave it could give it now.
fn counts(
    named: &NamedRelease,
    user: u32,
    operation: &OperationRow,
    items: &[Cdi],
    amount: u32,
    moment: u64,
) -> bool
    ensures { result ≡ counts (grounds_of moment named.now) user operation.now items.now amount }
{
    !named.row.used
        && is_same_operation(&named.row.operation, operation)
        && is_of_today(named)
        && is_giver_for(named, user, items, amount, moment)
}

/// Whether two rows are of one operation: of one form, and with the same members.
pub(crate) fn is_same_operation(row: &OperationRow, other: &OperationRow) -> bool
    ensures { result ≡ is_same_operation row.now other.now }
{
    row.form.number() == other.form.number() && row.members == other.members
}

/// Whether a release bears the present day of its branch.
fn is_of_today(named: &NamedRelease) -> bool
    ensures { result ≡ is_of_today (grounds_of 0 named.now) }
{
    match named.today {
        Some(today) => named.row.day == today,
        None => false,
    }
}

/// Whether who gave a release could give it now: they are another than this user, may ask, and hold
/// one triple for releases that has these items, up to the amount.
fn is_giver_for(named: &NamedRelease, user: u32, items: &[Cdi], amount: u32, moment: u64) -> bool
    ensures { result ≡ is_giver_for (grounds_of moment named.now) user items.now amount }
{
    named.row.giver != user
        && is_active(named.giver)
        && is_held_for(&named.held, items, amount, moment)
}

/// Whether a user is there and is not suspended.
fn is_active(standing: Option<Standing>) -> bool
    ensures { result ≡ is_active standing }
{
    match standing {
        Some(row) => !row.suspended,
        None => false,
    }
}

/// Whether one of these triples that is valid at the moment has the items, up to the amount.
fn is_held_for(held: &[HeldRow], items: &[Cdi], amount: u32, moment: u64) -> bool
    ensures { result ≡ is_held_for (current moment held.now) items.now amount }
{
    match best_limit(held, items, moment) {
        Some(limit) => amount <= limit,
        None => false,
    }
}
