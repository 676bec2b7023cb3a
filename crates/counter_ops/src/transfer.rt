//! A transfer: its members, its row, its items and its amount.

ghost use Rattle.counter_ops.specs.declared.op.Op.TheVariants as op;

use crate::item_list::ItemList;
use crate::items::{account, entry_items};
use crate::operation::{Form, Operation};
use bank_terms::{MAX_TRANSFER, Procedure};
use row_members::{five, in_places, key, number};

/// An amount moved from one account to another.
#[derive(Clone, Copy, Debug, PartialEq, Eq)]
pub struct Transfer {
    /// The account that gives, 1 to 999,999,999.
    pub source: u32,
    /// The account that takes, 1 to 999,999,999 and not the source.
    pub target: u32,
    /// The teller, 1 to 999,999,999.
    pub teller: u32,
    /// The teller's branch, 1 to 999,999,999.
    pub branch: u32,
    /// The cents moved, 1 to 999,999.
    pub amount: u32,
}

impl Operation for Transfer {
    ghost op = { λ form. op.Transfer form };

    fn procedure(&self) -> Procedure {
        Procedure::Transfer
    }

    fn places(&self) -> [i64; 8] {
        in_places(&[
            i64::from(self.source),
            i64::from(self.target),
            i64::from(self.teller),
            i64::from(self.branch),
            i64::from(self.amount),
        ])
    }

    fn touches(&self) -> ItemList {
        let mut items = ItemList::of(&[account(self.source), account(self.target)]);
        items.extend(&entry_items(self.teller, self.branch));
        items
    }

    fn amount(&self) -> u32 {
        self.amount
    }
}

impl Form for Transfer {
    fn from_places(members: &[i64; 8]) -> Option<Transfer> {
        let (source, target, teller, branch, amount) = five(members)?;
        if source == target {
            return None;
        }
        Some(Transfer {
            source: key(source)?,
            target: key(target)?,
            teller: key(teller)?,
            branch: key(branch)?,
            amount: number(amount, 1, MAX_TRANSFER)?,
        })
    }
}
