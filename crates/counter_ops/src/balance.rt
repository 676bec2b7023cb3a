//! The request for an account's balance, which names the account alone.

ghost use Rattle.counter_ops.specs.declared.op.Op.TheVariants as op;

use crate::item_list::ItemList;
use crate::items::account;
use crate::operation::{Form, Operation};
use bank_terms::Procedure;
use row_members::{key_alone, places_of_key};

/// The balance of an account, asked for.
#[derive(Clone, Copy, Debug, PartialEq, Eq)]
pub struct Balance {
    /// The account, 1 to 999,999,999.
    pub account: u32,
}

impl Operation for Balance {
    ghost op = { λ form. op.Balance form };

    fn procedure(&self) -> Procedure {
        Procedure::Balance
    }

    fn places(&self) -> [i64; 8] {
        places_of_key(self.account)
    }

    fn touches(&self) -> ItemList {
        ItemList::of(&[account(self.account)])
    }

    fn amount(&self) -> u32 {
        0
    }
}

impl Form for Balance {
    fn from_places(members: &[i64; 8]) -> Option<Balance> {
        Some(Balance {
            account: key_alone(members)?,
        })
    }
}
