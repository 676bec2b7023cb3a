//! A drawer put on: its members, its row, its items and its amount.

ghost use Rattle.counter_ops.specs.declared.op.Op.TheVariants as op;

use crate::item_list::ItemList;
use crate::items::items_of_drawer;
use crate::operation::{Form, Operation};
use bank_terms::{MAX_LIMIT, Procedure};
use row_members::{in_places, key, number, three};

/// A drawer given to the user, with cash from the vault.
#[derive(Clone, Copy, Debug, PartialEq, Eq)]
pub struct DrawerOn {
    /// The teller whose drawer it is, 1 to 999,999,999.
    pub teller: u32,
    /// The teller's branch, 1 to 999,999,999.
    pub branch: u32,
    /// The cents from the vault, 0 to 999,999,999.
    pub cash: u32,
}

impl Operation for DrawerOn {
    ghost op = { λ form. op.DrawerOn form };

    fn procedure(&self) -> Procedure {
        Procedure::DrawerOn
    }

    fn places(&self) -> [i64; 8] {
        in_places(&[
            i64::from(self.teller),
            i64::from(self.branch),
            i64::from(self.cash),
        ])
    }

    fn touches(&self) -> ItemList {
        items_of_drawer(self.teller, self.branch)
    }

    fn amount(&self) -> u32 {
        self.cash
    }
}

impl Form for DrawerOn {
    fn from_places(members: &[i64; 8]) -> Option<DrawerOn> {
        let (teller, branch, cash) = three(members)?;
        Some(DrawerOn {
            teller: key(teller)?,
            branch: key(branch)?,
            cash: number(cash, 0, MAX_LIMIT)?,
        })
    }
}
