//! What every operation says of itself: its procedure, its row, the items that it touches and its amount. A
//! form of operations is also read back from a row.

ghost use Rattle.std.specs.Prelude.{◌≡◌, ◌≤◌, length, Some, IfSome};
ghost use Rattle.counter_ops.specs.Op.{procedure_of};
ghost use Rattle.counter_ops.specs.Operations.{IsOp};
ghost use Rattle.row_members.specs.Places.{places as places_with};
ghost use Rattle.counter_ops.specs.Rows.{op_numbers, row_of};
ghost use Rattle.counter_ops.specs.Touched.{touched, amount as amount_of};
ghost use Rattle.counter_ops.specs.declared.op.Op.{Op as AnOp};

use crate::item_list::ItemList;
use bank_terms::{OperationRow, Procedure};

/// An operation, of one form or of any.
pub trait Operation {
    /// The operation as one of any form.
    ghost op: { Self → AnOp };

    /// The procedure that it is an execution of.
    fn procedure(&self) -> Procedure
        ensures { result ≡ procedure_of (op self.now) };

    /// Its numbers, in the places of a row.
    fn places(&self) -> [i64; 8]
        ensures { result ≡ places_with (op_numbers (op self.now)) };

    /// The items that it touches, as its form names them: of the operation alone, whatever the books
    /// hold. It takes no memory.
    fn touches(&self) -> ItemList
        ensures items { result ≡ touched (op self.now) }
        ensures at_most_six { length result ≤ 6 };

    /// The cents that it amounts to, without a sign: what a triple's limit is compared with. It takes
    /// no memory.
    fn amount(&self) -> u32
        ensures { result ≡ amount_of (op self.now) };

    /// The operation as a row holds it.
    final fn to_row(&self) -> OperationRow
        ensures { result ≡ row_of (op self.now) }
    {
        OperationRow {
            form: self.procedure(),
            members: self.places(),
        }
    }
}

/// A form of operations.
pub trait Form: Operation {
    /// The operation of this form, with all its members in their ranges, whose numbers stand in the
    /// places.
    fn from_places(members: &[i64; 8]) -> Option<Self>
        ensures some { IfSome result (λ form. IsOp (Self.op form) × (places_with (op_numbers (Self.op form)) ≡ members.now)) }
        ensures only { (form : Self) → IsOp (Self.op form) → places_with (op_numbers (Self.op form)) ≡ members.now → result ≡ Some form };
}
