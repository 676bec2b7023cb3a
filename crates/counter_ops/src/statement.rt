//! A statement asked for: its members, its row, its items and its amount.

ghost use Rattle.counter_ops.specs.declared.op.Op.TheVariants as op;

use crate::item_list::ItemList;
use crate::items::account;
use crate::operation::{Form, Operation};
use bank_terms::{MAX_LISTED, Procedure};
use row_members::{in_places, key, number, three};

/// The entries of an account, asked for.
#[derive(Clone, Copy, Debug, PartialEq, Eq)]
pub struct Statement {
    /// The account, 1 to 999,999,999.
    pub account: u32,
    /// The turn of the first entry, 1 to 999,999,999.
    pub start: u32,
    /// How many entries at most, 1 to 1,000.
    pub count: u32,
}

impl Operation for Statement {
    ghost op = { λ form. op.Statement form };

    fn procedure(&self) -> Procedure {
        Procedure::Statement
    }

    fn places(&self) -> [i64; 8] {
        in_places(&[
            i64::from(self.account),
            i64::from(self.start),
            i64::from(self.count),
        ])
    }

    fn touches(&self) -> ItemList {
        ItemList::of(&[account(self.account)])
    }

    fn amount(&self) -> u32 {
        0
    }
}

impl Form for Statement {
    fn from_places(members: &[i64; 8]) -> Option<Statement> {
        let (account, start, count) = three(members)?;
        Some(Statement {
            account: key(account)?,
            start: key(start)?,
            count: number(count, 1, MAX_LISTED)?,
        })
    }
}
