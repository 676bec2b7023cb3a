//! A correction: its members, its row, its items and its amount.

ghost use Rattle.counter_ops.specs.declared.op.Op.TheVariants as op;

use crate::item_list::ItemList;
use crate::items::{account, entry_items, size};
use crate::operation::{Form, Operation};
use bank_terms::Procedure;
use money::Delta;
use row_members::{delta, in_places, key, key_or_zero, six};

/// An entry undone by another, which is what it was with the opposite sign.
#[derive(Clone, Copy, Debug, PartialEq, Eq)]
pub struct Correct {
    /// The branch of the entry, 1 to 999,999,999.
    pub branch: u32,
    /// The number of the entry, 1 to 999,999,999.
    pub entry: u32,
    /// The account that the entry names, 1 to 999,999,999.
    pub account: u32,
    /// The account of the other leg of a transfer; 0 for a post.
    pub other: u32,
    /// The teller at whom it is undone, 1 to 999,999,999.
    pub teller: u32,
    /// What the entry added.
    pub delta: Delta,
}

impl Operation for Correct {
    ghost op = { λ form. op.Correct form };

    fn procedure(&self) -> Procedure {
        Procedure::Correct
    }

    fn places(&self) -> [i64; 8] {
        in_places(&[
            i64::from(self.branch),
            i64::from(self.entry),
            i64::from(self.account),
            i64::from(self.other),
            i64::from(self.teller),
            self.delta.get(),
        ])
    }

    fn touches(&self) -> ItemList {
        let mut items = ItemList::of(&[account(self.account)]);
        if self.other != 0 {
            items.extend(&[account(self.other)]);
        }
        items.extend(&entry_items(self.teller, self.branch));
        items
    }

    fn amount(&self) -> u32 {
        size(self.delta)
    }
}

impl Form for Correct {
    fn from_places(members: &[i64; 8]) -> Option<Correct> {
        let (branch, entry, account, other, teller, added) = six(members)?;
        if account == other {
            return None;
        }
        Some(Correct {
            branch: key(branch)?,
            entry: key(entry)?,
            account: key(account)?,
            other: key_or_zero(other)?,
            teller: key(teller)?,
            delta: delta(added)?,
        })
    }
}
