//! The rows of one key made anew at their places, or removed.

ghost use Rattle.std.specs.Prelude.{◌≡◌, ◌==◌, ◌≤◌, if◌then◌else◌, vec_len, vec_capacity};
ghost use Rattle.std.specs.List.Sorted.{IsNonDecreasingBy};
ghost use Rattle.keyed_rows.specs.Changed.{change_rows, delete_rows};

use crate::ordered::Keyed;

/// What is to become of a row that stays at its place, such as the new day of a branch.
pub trait Change<T: Keyed> {
    ghost made: { Self → T → T };

    /// Makes the row anew. Its key stays.
    fn change(&self, row: &mut T)
        ensures { row.new ≡ made self.now row.old };

    ghost keeps_key: { (change : Self) (row : T) → T.key (made change row) ≡ T.key row };
}

/// Makes the rows of this key anew, each at its place. The others stay as they are. It takes no memory.
pub fn change_rows<T: Keyed, C: Change<T>>(rows: &mut [T], key: u128, change: &C)
    ensures rows { rows.new ≡ change_rows T.key key (C.made change.now) rows.old }
    ensures in_order { IsNonDecreasingBy T.key rows.old → IsNonDecreasingBy T.key rows.new }
{
    for row in rows.iter_mut() {
        change_row(row, key, change);
    }
}

/// Makes a row anew, if it is of this key.
fn change_row<T: Keyed, C: Change<T>>(row: &mut T, key: u128, change: &C)
    ensures { row.new ≡ (if T.key row.old == key then C.made change.now row.old else row.old) }
{
    if row.key() == key {
        change.change(row);
    }
}

/// Takes the rows of this key away. The others stay, in their order. It takes no memory.
pub fn remove_rows<T: Keyed + Drop>(rows: &mut Vec<T>, key: u128)
    ensures items { rows.new.items ≡ delete_rows T.key key rows.old.items }
    ensures len { vec_len rows.new ≤ vec_len rows.old }
    ensures capacity { vec_capacity rows.new ≡ vec_capacity rows.old }
    ensures in_order { IsNonDecreasingBy T.key rows.old.items → IsNonDecreasingBy T.key rows.new.items }
{
    rows.retain(|row| row.key() != key);
}
