//! A condition on kept rows, and the least branch with a row that fails it.

ghost use Rattle.std.specs.Prelude.{◌≡◌, ◌↔◌, ℕ, IsTrue, length};
ghost use Rattle.book_check.specs.Least.{HoldsOfBranch, IsFirstFailing, lesser_of};

/// What is asked of a kept row, which is judged beside the row that the books give, and the branch
/// that is reported where it fails.
pub(crate) trait Condition<T> {
    /// What it asks of a kept row, beside the row that the books give.
    ghost holds: { Self → T → T → Type 0 };

    /// The branch of a kept row.
    ghost branch_of: { Self → T → ℕ };

    /// Whether it holds of the row.
    fn holds(&self, row: &T, computed: &T) -> bool
        ensures { IsTrue result ↔ holds self.now row.now computed.now };

    /// The branch that is reported where it fails of the row.
    fn branch_of(&self, row: &T) -> u32
        ensures { result ≡ branch_of self.now row.now };
}

/// The least branch that has a row of which the condition fails, or none where it holds of all rows.
pub(crate) fn least_failing<T, C: Condition<T>>(
    condition: &C,
    rows: &[T],
    computed: &[T],
) -> Option<u32>
    requires same_length { length rows.now ≡ length computed.now }
    ensures { IsFirstFailing (HoldsOfBranch (C.holds condition.now) (C.branch_of condition.now) rows.now computed.now (length rows.now)) result }
{
    let mut least = None;
    for index in 0..rows.len() {
        if !condition.holds(&rows[index], &computed[index]) {
            least = lesser_of(least, Some(condition.branch_of(&rows[index])));
        }
    }
    least
}

/// The lesser of two branches, where there are such.
pub(crate) fn lesser_of(first: Option<u32>, second: Option<u32>) -> Option<u32>
    ensures { result ≡ lesser_of first second }
{
    match (first, second) {
        (None, other) => other,
        (Some(one), None) => Some(one),
        (Some(one), Some(other)) => Some(one.min(other)),
    }
}
