//! A move of cash: its members, its row, its items and its amount.

ghost use Rattle.std.specs.Prelude.{◌≡◌, ◌≤◌, ◌++◌, length};
ghost use Rattle.counter_ops.specs.Touched.{touched_place};
ghost use Rattle.counter_ops.specs.declared.op.Op.TheVariants as op;

use crate::item_list::ItemList;
use crate::items::{branch, drawer, teller, vault};
use crate::operation::{Form, Operation};
use bank_terms::{MAX_LIMIT, Procedure};
use row_members::{four, in_places, key, key_or_zero, number};

/// Cash moved from one place of a branch to another.
#[derive(Clone, Copy, Debug, PartialEq, Eq)]
pub struct MoveCash {
    /// The teller whose drawer gives; 0 for the vault.
    pub source: u32,
    /// The teller whose drawer takes, and not the source; 0 for the vault.
    pub target: u32,
    /// The branch, 1 to 999,999,999.
    pub branch: u32,
    /// The cents moved, 1 to 999,999,999.
    pub amount: u32,
}

impl Operation for MoveCash {
    ghost op = { λ form. op.MoveCash form };

    fn procedure(&self) -> Procedure {
        Procedure::MoveCash
    }

    fn places(&self) -> [i64; 8] {
        in_places(&[
            i64::from(self.source),
            i64::from(self.target),
            i64::from(self.branch),
            i64::from(self.amount),
        ])
    }

    fn touches(&self) -> ItemList {
        let mut items = ItemList::of(&[branch(self.branch)]);
        add_place(&mut items, self.source);
        add_place(&mut items, self.target);
        if self.source == 0 || self.target == 0 {
            items.extend(&[vault(self.branch)]);
        }
        items
    }

    fn amount(&self) -> u32 {
        self.amount
    }
}

impl Form for MoveCash {
    fn from_places(members: &[i64; 8]) -> Option<MoveCash> {
        let (from, to, branch, amount) = four(members)?;
        if from == to {
            return None;
        }
        Some(MoveCash {
            source: key_or_zero(from)?,
            target: key_or_zero(to)?,
            branch: key(branch)?,
            amount: number(amount, 1, MAX_LIMIT)?,
        })
    }
}

/// Appends the teller and their drawer to the items, if the place is not the vault.
fn add_place(items: &mut ItemList, place: u32)
    requires { length items.old ≤ 4 }
    ensures { items.new ≡ items.old ++ touched_place place }
{
    if place != 0 {
        items.extend(&[teller(place), drawer(place)]);
    }
}
