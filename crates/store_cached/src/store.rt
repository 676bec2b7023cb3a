//! How a plan is handed on to the store below, and what is known given up as far as it may change that.

ghost use Rattle.std.specs.Prelude.{◌≡◌, IfSome};
ghost use Rattle.bank_books.specs.Effects.{applied};
ghost use Rattle.bank_books.specs.WorldLists.{WorldLists};
ghost use Rattle.store_cached.specs.Users.{IsKnownOf, changes_users, is_of_users};

use crate::cached::Cached;
use crate::known::Known;
use bank_books::{Plan, RowWrite, changes_policy};
use money::Fault;
use std::alloc::Global;
use store_rows::Store;

/// Whether a change may be one of what the rows of users say.
fn is_of_users(row: &RowWrite) -> bool
    ensures { result ≡ is_of_users row.now }
{
    matches!(
        row,
        RowWrite::Release(_) | RowWrite::Used(_) | RowWrite::Session(_) | RowWrite::Policy(_)
    )
}

/// Whether a plan may change what the rows of users say.
fn changes_users(plan: &[RowWrite]) -> bool
    ensures { result ≡ changes_users plan.now }
{
    plan.iter().any(|row| is_of_users(row))
}

/// Gives up what a plan may change: all if it changes the policy, which raises the version, and what is kept of users
/// if it may change any.
fn forget(known: &mut Option<Known>, plan: &[RowWrite])
    ensures carried { (w : WorldLists) → IfSome known.old (IsKnownOf w) → IfSome known.new (IsKnownOf (applied plan.now w)) }
    ensures refused { (w : WorldLists) → IfSome known.old (IsKnownOf w) → IfSome known.new (IsKnownOf w) }
{
    if changes_policy(plan) {
        *known = None;
    } else if changes_users(plan) {
        if let Some(it) = known {
            it.forget_users();
        }
    }
}

impl<S: Store> Store for Cached<S> {
    fn apply(&mut self, alloc: Global, plan: Plan) -> Result<(), Fault> {
        forget(&mut self.known, &plan);
        self.store.apply(alloc, plan)
    }
}
