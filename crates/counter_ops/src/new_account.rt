//! A new account: its members, its row, its items and its amount.

ghost use Rattle.counter_ops.specs.declared.op.Op.TheVariants as op;

use crate::item_list::ItemList;
use crate::items::{account, branch};
use crate::operation::{Form, Operation};
use bank_terms::Procedure;
use row_members::{floor, in_places, key, three};

/// A new account, with nothing in it.
#[derive(Clone, Copy, Debug, PartialEq, Eq)]
pub struct NewAccount {
    /// The account, 1 to 999,999,999.
    pub account: u32,
    /// Its home, 1 to 999,999,999.
    pub branch: u32,
    /// The least balance that it may have, in cents, -999,999,999 to 0.
    pub floor: i32,
}

impl Operation for NewAccount {
    ghost op = { λ form. op.NewAccount form };

    fn procedure(&self) -> Procedure {
        Procedure::NewAccount
    }

    fn places(&self) -> [i64; 8] {
        in_places(&[
            i64::from(self.account),
            i64::from(self.branch),
            i64::from(self.floor),
        ])
    }

    fn touches(&self) -> ItemList {
        ItemList::of(&[account(self.account), branch(self.branch)])
    }

    fn amount(&self) -> u32 {
        self.floor.unsigned_abs()
    }
}

impl Form for NewAccount {
    fn from_places(members: &[i64; 8]) -> Option<NewAccount> {
        let (account, branch, least) = three(members)?;
        Some(NewAccount {
            account: key(account)?,
            branch: key(branch)?,
            floor: floor(least)?,
        })
    }
}
