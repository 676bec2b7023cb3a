//! A post: its members, its row, its items and its amount.

ghost use Rattle.counter_ops.specs.declared.op.Op.TheVariants as op;

use crate::item_list::ItemList;
use crate::items::{account, entry_items, size};
use crate::operation::{Form, Operation};
use bank_terms::Procedure;
use money::Delta;
use row_members::{delta, four, in_places, key};

/// An amount added to an account at a teller: the benchmark's debit-credit transaction.
#[derive(Clone, Copy, Debug, PartialEq, Eq)]
pub struct Post {
    /// The account, 1 to 999,999,999.
    pub account: u32,
    /// The teller's branch, 1 to 999,999,999.
    pub branch: u32,
    /// What is added. Less than zero takes away.
    pub delta: Delta,
    /// The teller, 1 to 999,999,999.
    pub teller: u32,
}

impl Operation for Post {
    ghost op = { λ form. op.Post form };

    fn procedure(&self) -> Procedure {
        Procedure::Post
    }

    fn places(&self) -> [i64; 8] {
        in_places(&[
            i64::from(self.account),
            i64::from(self.teller),
            i64::from(self.branch),
            self.delta.get(),
        ])
    }

    fn touches(&self) -> ItemList {
        let mut items = ItemList::of(&[account(self.account)]);
        items.extend(&entry_items(self.teller, self.branch));
        items
    }

    fn amount(&self) -> u32 {
        size(self.delta)
    }
}

impl Form for Post {
    fn from_places(members: &[i64; 8]) -> Option<Post> {
        let (account, teller, branch, added) = four(members)?;
        Some(Post {
            account: key(account)?,
            branch: key(branch)?,
            delta: delta(added)?,
            teller: key(teller)?,
        })
    }
}
