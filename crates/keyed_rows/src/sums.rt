//! Exact sums over rows, each of which adds its share.

ghost use Rattle.std.specs.Prelude.{◌≡◌, ◌*◌, ◌^◌, ◌≤ℤ◌, ℤ, pos, neg_ℤ, length, map};
ghost use Rattle.keyed_rows.specs.Totals.{total};

/// A question of which each row holds a share, such as the entries of one account.
pub trait Tally<T> {
    ghost share: { Self → T → ℤ };

    /// What the row adds to the sum. It is 0 for a row that the question passes over.
    fn share(&self, row: &T) -> i64
        ensures { result ≡ share self.now row.now };
}

/// The shares of all the rows, added up. It is exact for any number of rows and any shares.
pub fn sum_of<T, Q: Tally<T>>(query: &Q, rows: &[T]) -> i128
    ensures sum { result ≡ total (map (Q.share query.now) rows.now) }
    ensures low { neg_ℤ (pos (2 ^ 63 * length rows.now)) ≤ℤ result }
    ensures high { result ≤ℤ pos (2 ^ 63 * length rows.now) }
{
    let mut sum: i128 = 0;
    for row in rows {
        sum += i128::from(query.share(row));
    }
    sum
}
