//! The rows of one group, found by searches in rows that stand in order.

ghost use Rattle.std.specs.Prelude.{◌≡◌};
ghost use Rattle.std.specs.List.Sorted.{IsNonDecreasingBy};
ghost use Rattle.book_sums.specs.Groups.{rows_of_group};

use keyed_rows::{Keyed, rows_between};

/// The rows of a group, where a key is the group times 2 to the 32 and a number within the group.
/// The rows stand in order of their keys, so each look halves those that are left.
pub fn rows_of_group<T: Keyed>(rows: &[T], group: u32) -> &[T]
    ensures { IsNonDecreasingBy T.key rows.now → result.now ≡ rows_of_group T.key group rows.now }
{
    let low = group as u128 * (1 << 32);
    rows_between(rows, low, low + (1 << 32))
}
