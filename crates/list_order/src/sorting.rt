//! The sort of rows by their keys, in which those of one key keep their order.

ghost use Rattle.std.specs.Prelude.{◌≡◌, OnOk};
ghost use Rattle.std.specs.List.Sorted.{IsNonDecreasingBy};
ghost use Rattle.list_order.specs.Sorted.{in_order};

use keyed_rows::Keyed;
use std::alloc::AllocError;

/// Puts rows in order of their keys. Those of one key keep their order. The only error is that memory is refused; the rows
/// may then stand in any order.
pub fn sort_rows<T: Keyed>(rows: &mut Vec<T>) -> Result<(), AllocError>
    ensures rows { OnOk result (rows.new.items ≡ in_order T.key rows.old.items) }
    ensures in_order { OnOk result (IsNonDecreasingBy T.key rows.new.items) }
{
    rows.sort_by_key(|row| row.key())
}
