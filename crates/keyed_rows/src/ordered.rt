//! Rows in order of their keys: where a row belongs, how it is written there, and how it is found.

ghost use Rattle.std.specs.Prelude.{◌≡◌, ◌==◌, ◌&&◌, ◌+◌, ◌<◌, ◌≤◌, ◌↔◌, ℕ, nat_le, nat_lt, length, map, IsTrue, vec_len, vec_capacity, OnOk, OnErr};
ghost use Rattle.std.specs.List.{filter, find, prefix_len};
ghost use Rattle.std.specs.Option.{option_copied};
ghost use Rattle.std.specs.List.Sorted.{IsNonDecreasingBy, IsPartitionPoint};
ghost use Rattle.keyed_rows.specs.Ordered.{AreDistinct, HasRow, add_row};

use std::alloc::AllocError;

/// A row with a key by which rows are ordered.
pub trait Keyed {
    ghost key: { Self → ℕ };

    /// The key. Rows of one key stand in the order in which they were written.
    fn key(&self) -> u128
        ensures { result ≡ key self.now };
}

/// The place after the rows at the front whose keys are not above this one.
pub fn place_of<T: Keyed>(rows: &[T], key: u128) -> usize
    ensures place { result ≡ prefix_len (λ x. nat_le (T.key x) key) rows.now }
    ensures within { result ≤ length rows.now }
{
    let mut place: usize = 0;
    for row in rows {
        if row.key() > key {
            return place;
        }
        place += 1;
    }
    place
}

/// Writes a row at its place, after the rows of its key and of lower ones. Where memory is refused the rows stay.
pub fn insert_row<T: Keyed + Drop>(rows: &mut Vec<T>, row: T) -> Result<(), AllocError>
    ensures ok { OnOk result (rows.new.items ≡ add_row T.key row rows.old.items) }
    ensures len { OnOk result (vec_len rows.new ≡ vec_len rows.old + 1) }
    ensures err { OnErr result (rows.new.items ≡ rows.old.items) }
    ensures full { OnErr result (vec_capacity rows.old ≤ vec_len rows.old) }
    ensures in_order { IsNonDecreasingBy T.key rows.old.items → IsNonDecreasingBy T.key rows.new.items }
{
    let place = place_of(rows, row.key());
    rows.insert(place, row)?;
    Ok(())
}

/// Writes a row at its place, as `insert_row` does, into room that is there. It takes no memory and cannot fail.
pub fn insert_row_reserved<T: Keyed>(rows: &mut Vec<T>, row: T)
    requires { vec_len rows.old < vec_capacity rows.old }
    ensures items { rows.new.items ≡ add_row T.key row rows.old.items }
    ensures len { vec_len rows.new ≡ vec_len rows.old + 1 }
    ensures capacity { vec_capacity rows.new ≡ vec_capacity rows.old }
    ensures in_order { IsNonDecreasingBy T.key rows.old.items → IsNonDecreasingBy T.key rows.new.items }
{
    let place = place_of(rows, row.key());
    rows.insert(place, row).unwrap();
}

/// Whether the rows stand in order of their keys.
pub fn are_in_order<T: Keyed>(rows: &[T]) -> bool
    ensures { IsTrue result ↔ IsNonDecreasingBy T.key rows.now }
{
    rows.is_sorted_by(|row, next| row.key() <= next.key())
}

/// Whether no two of the rows have one key. The rows stand in order of their keys, so each is compared to its neighbour alone.
pub fn has_distinct_keys<T: Keyed>(rows: &[T]) -> bool
    ensures { IsNonDecreasingBy T.key rows.now → (IsTrue result ↔ AreDistinct (map T.key rows.now)) }
{
    rows.is_sorted_by(|row, next| row.key() < next.key())
}

/// Whether a row of this key is there. The rows stand in order of their keys, so each look halves those that are left.
pub fn is_there<T: Keyed>(rows: &[T], key: u128) -> bool
    ensures { IsNonDecreasingBy T.key rows.now → (IsTrue result ↔ HasRow T.key rows.now key) }
{
    rows.binary_search_by_key(&key, |row| row.key()).is_ok()
}

/// The first row of this key, or none where there is none. The rows stand in order of their keys, so each look halves those that are
/// left. It takes no memory.
pub fn find_row<T: Keyed>(rows: &[T], key: u128) -> Option<&T>
    ensures { IsNonDecreasingBy T.key rows.now → option_copied result ≡ find (λ row. T.key row == key) rows.now }
{
    let row = rows.get(end_below(rows, key))?;
    if row.key() == key { Some(row) } else { None }
}

/// The rows whose keys are from one key to below another. The rows stand in order of their keys, so each look halves those that are
/// left. It takes no memory.
pub fn rows_between<T: Keyed>(rows: &[T], low: u128, high: u128) -> &[T]
    ensures { IsNonDecreasingBy T.key rows.now → result.now ≡ filter (λ row. nat_le low (T.key row) && nat_lt (T.key row) high) rows.now }
{
    let from_low = &rows[end_below(rows, low)..];
    &from_low[..end_below(from_low, high)]
}

/// The place after the rows whose keys are below this one.
fn end_below<T: Keyed>(rows: &[T], key: u128) -> usize
    ensures place { IsNonDecreasingBy T.key rows.now → IsPartitionPoint (λ row. T.key row < key) (λ row. key ≤ T.key row) rows.now result }
    ensures within { result ≤ length rows.now }
{
    rows.partition_point(|row| row.key() < key)
}
