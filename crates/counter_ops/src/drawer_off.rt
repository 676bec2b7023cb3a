//! A drawer put off: its members, its row, its items and its amount.

ghost use Rattle.counter_ops.specs.declared.op.Op.TheVariants as op;

use crate::item_list::ItemList;
use crate::items::items_of_drawer;
use crate::operation::{Form, Operation};
use bank_terms::Procedure;
use money::Cents;
use row_members::{cash, in_places, key, three};

/// A drawer counted and put off, its cash back in the vault.
#[derive(Clone, Copy, Debug, PartialEq, Eq)]
pub struct DrawerOff {
    /// The teller whose drawer it is, 1 to 999,999,999.
    pub teller: u32,
    /// The teller's branch, 1 to 999,999,999.
    pub branch: u32,
    /// The cents that were counted, not below zero.
    pub counted: Cents,
}

impl Operation for DrawerOff {
    ghost op = { λ form. op.DrawerOff form };

    fn procedure(&self) -> Procedure {
        Procedure::DrawerOff
    }

    fn places(&self) -> [i64; 8] {
        in_places(&[
            i64::from(self.teller),
            i64::from(self.branch),
            self.counted.get(),
        ])
    }

    fn touches(&self) -> ItemList {
        items_of_drawer(self.teller, self.branch)
    }

    fn amount(&self) -> u32 {
        0
    }
}

impl Form for DrawerOff {
    fn from_places(members: &[i64; 8]) -> Option<DrawerOff> {
        let (teller, branch, counted) = three(members)?;
        Some(DrawerOff {
            teller: key(teller)?,
            branch: key(branch)?,
            counted: cash(counted)?,
        })
    }
}
