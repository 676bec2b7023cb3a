//! The request that ends a day of a branch, which names the branch alone.

ghost use Rattle.counter_ops.specs.declared.op.Op.TheVariants as op;

use crate::item_list::ItemList;
use crate::items::items_of_books;
use crate::operation::{Form, Operation};
use bank_terms::Procedure;
use row_members::{key_alone, places_of_key};

/// The end of a day of a branch.
#[derive(Clone, Copy, Debug, PartialEq, Eq)]
pub struct CloseDay {
    /// The branch, 1 to 999,999,999.
    pub branch: u32,
}

impl Operation for CloseDay {
    ghost op = { λ form. op.CloseDay form };

    fn procedure(&self) -> Procedure {
        Procedure::CloseDay
    }

    fn places(&self) -> [i64; 8] {
        places_of_key(self.branch)
    }

    fn touches(&self) -> ItemList {
        items_of_books(self.branch)
    }

    fn amount(&self) -> u32 {
        0
    }
}

impl Form for CloseDay {
    fn from_places(members: &[i64; 8]) -> Option<CloseDay> {
        Some(CloseDay {
            branch: key_alone(members)?,
        })
    }
}
