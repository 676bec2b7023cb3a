//! The turns of an account, and whether the balances kept after its entries follow from their deltas.

ghost use Rattle.std.specs.Prelude.{◌≡◌, ◌↔◌, ◌+ℤ◌, IfSome, IsSome, IsTrue};
ghost use Rattle.book_check.specs.Turns.{AreBalancesAfter, AreBeside, IsAccountInTurns};

use crate::amounts::amount_of;
use bank_books::{Account, EntryRecord};
use book_range::are_numbered;
use book_sums::{Part, Parts, Shares};

/// The balances that are kept beside entries, by account and turn.
#[derive(Clone, Copy)]
pub(crate) struct TurnBalances;

impl Parts<EntryRecord> for TurnBalances {
    ghost use Rattle.book_check.specs.Turns.{turn_balance};

    ghost part = { λ _ e. turn_balance e };

    fn part(&self, row: &EntryRecord) -> Part {
        Part {
            group: row.row.account,
            number: row.row.turn,
            amount: amount_of(row.balance_after),
        }
    }
}

/// Whether the turns of an account are numbered, and the balances kept beside them are those that the
/// deltas give.
pub(crate) fn is_in_turns(deltas: &Shares, balances: &Shares, account: &Account) -> bool
    requires { AreBeside deltas.now balances.now account.now.account }
    ensures { IsTrue result ↔ IsAccountInTurns deltas.now balances.now account.now }
{
    let parts = deltas.parts_of(account.account);
    are_numbered(parts)
        && are_balances_after(
            account.opening.get(),
            parts,
            balances.parts_of(account.account),
        )
}

/// Whether each balance is the one before it, or the opening, and the delta at its place.
fn are_balances_after(opening: i64, deltas: &[Part], balances: &[Part]) -> bool
    ensures { IsTrue result ↔ AreBalancesAfter opening deltas.now balances.now }
{
    if deltas.len() != balances.len() {
        return false;
    }
    let mut before = opening;
    for index in 0..deltas.len() {
        match balance_after(before, &deltas[index], &balances[index]) {
            Some(after) => before = after,
            None => return false,
        }
    }
    true
}

/// The balance kept after a delta, where it is the sum of the one before and the delta.
fn balance_after(before: i64, delta: &Part, stated: &Part) -> Option<i64>
    ensures sum { IsSome result ↔ (stated.now.amount ≡ before +ℤ delta.now.amount) }
    ensures value { IfSome result (λ after. after ≡ stated.now.amount) }
{
    let after = stated.amount;
    if i128::from(before) + i128::from(delta.amount) == i128::from(after) {
        Some(after)
    } else {
        None
    }
}
