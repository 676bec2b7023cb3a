//! A release: its members, and how they stand in a row with those of the operation that it is for.

ghost use Rattle.std.specs.Prelude.{◌≡◌, pos, Some, IfSome};
ghost use Rattle.bank_terms.specs.Procedure.{number_of};
ghost use Rattle.counter_ops.specs.Op.{procedure_of};
ghost use Rattle.counter_ops.specs.Releasable.{op_of};
ghost use Rattle.counter_ops.specs.declared.releasable.Releasable.{Releasable as AReleasable};
ghost use Rattle.counter_ops.specs.declared.op.Op.TheVariants as op;

use crate::item_list::ItemList;
use crate::operation::{Form, Operation};
use crate::releasable::Releasable;
use bank_terms::{MAX_USER, OperationRow, Procedure};
use row_members::number;

/// Authorization for one operation of another user.
#[derive(Clone, Copy, Debug, PartialEq, Eq)]
pub struct Release {
    /// Who is given it, 1 to 9,999.
    pub beneficiary: u32,
    /// The exact operation that it is for.
    pub operation: Releasable,
}

impl Operation for Release {
    ghost op = { λ form. op.Release form };

    fn procedure(&self) -> Procedure {
        Procedure::Release
    }

    fn places(&self) -> [i64; 8] {
        let row = self.operation.to_row();
        let [first, second, third, fourth, fifth, sixth, _, _] = row.members;
        [
            i64::from(self.beneficiary),
            i64::from(row.form.number()),
            first,
            second,
            third,
            fourth,
            fifth,
            sixth,
        ]
    }

    fn touches(&self) -> ItemList {
        self.operation.touches()
    }

    fn amount(&self) -> u32 {
        self.operation.amount()
    }
}

impl Form for Release {
    fn from_places(members: &[i64; 8]) -> Option<Release> {
        let [
            beneficiary,
            form,
            first,
            second,
            third,
            fourth,
            fifth,
            sixth,
        ] = *members;
        let beneficiary = number(beneficiary, 1, MAX_USER)?;
        let row = OperationRow {
            form: releasable_form(form)?,
            members: [first, second, third, fourth, fifth, sixth, 0, 0],
        };
        Some(Release {
            beneficiary,
            operation: Releasable::from_row(&row)?,
        })
    }
}

/// The procedure of this number, where a release may be for one of its operations.
fn releasable_form(place: i64) -> Option<Procedure>
    ensures some { IfSome result (λ form. pos (number_of form) ≡ place) }
    ensures only { (operation : AReleasable) → pos (number_of (procedure_of (op_of operation))) ≡ place → result ≡ Some (procedure_of (op_of operation)) }
{
    match place {
        1 => Some(Procedure::Post),
        2 => Some(Procedure::Transfer),
        3 => Some(Procedure::Correct),
        4 => Some(Procedure::DrawerOn),
        6 => Some(Procedure::MoveCash),
        _ => None,
    }
}
