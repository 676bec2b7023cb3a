//! A list of accounts asked for: its members, its row, its items and its amount.

ghost use Rattle.counter_ops.specs.declared.op.Op.TheVariants as op;

use crate::item_list::ItemList;
use crate::operation::{Form, Operation};
use bank_terms::{MAX_LISTED, Procedure};
use row_members::{in_places, key_or_zero, number, two};

/// The accounts that the user may see, asked for.
#[derive(Clone, Copy, Debug, PartialEq, Eq)]
pub struct Accounts {
    /// The key above which they lie, 0 to 999,999,999.
    pub after: u32,
    /// How many accounts at most, 1 to 1,000.
    pub count: u32,
}

impl Operation for Accounts {
    ghost op = { λ form. op.Accounts form };

    fn procedure(&self) -> Procedure {
        Procedure::Accounts
    }

    fn places(&self) -> [i64; 8] {
        in_places(&[i64::from(self.after), i64::from(self.count)])
    }

    fn touches(&self) -> ItemList {
        ItemList::new()
    }

    fn amount(&self) -> u32 {
        0
    }
}

impl Form for Accounts {
    fn from_places(members: &[i64; 8]) -> Option<Accounts> {
        let (after, count) = two(members)?;
        Some(Accounts {
            after: key_or_zero(after)?,
            count: number(count, 1, MAX_LISTED)?,
        })
    }
}
