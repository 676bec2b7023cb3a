//! Rows in order of their groups, and whether any group has too many.

ghost use Rattle.std.specs.Prelude.{◌≡◌, ◌==◌, ◌↔◌, ◌≤◌, ℕ, count_by, IsTrue};
ghost use Rattle.std.specs.List.Sorted.{IsNonDecreasingBy};

/// A row of a group, such as the rows of one user.
pub trait Grouped {
    ghost group: { Self → ℕ };

    /// The number of its group.
    fn group(&self) -> u32
        ensures { result ≡ group self.now };
}

/// Whether each group has this many rows at most. The rows stand in order of their groups, so each is compared to one
/// row alone, that many places after it.
pub fn has_small_groups<T: Grouped>(rows: &[T], most: usize) -> bool
    ensures { IsNonDecreasingBy T.group rows.now → (IsTrue result ↔ ((group : ℕ) → count_by (λ row. T.group row == group) rows.now ≤ most)) }
{
    rows.iter()
        .zip(rows.iter().skip(most))
        .all(|(row, following)| row.group() != following.group())
}
