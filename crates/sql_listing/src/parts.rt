//! Which of a table's rows are asked for.

ghost use Rattle.std.specs.Prelude.{◌≡◌, pos, negsuc, None};
ghost use Rattle.sql_listing.specs.Columns.{part_of};

use crate::columns::Columns;

/// The rows of a table after these columns, in order of key, at most `count`; all of them from the
/// first on with -1 in the first column, and however many there are with a count of -1.
#[derive(Clone, Copy)]
pub(crate) struct Part {
    pub(crate) first: i64,
    pub(crate) second: u32,
    pub(crate) third: u32,
    pub(crate) count: i64,
}

/// All rows.
pub(crate) fn whole() -> Part
    ensures { result ≡ part_of None (negsuc 0) }
{
    Part {
        first: -1,
        second: 0,
        third: 0,
        count: -1,
    }
}

/// The first row after these columns, or the first of all.
pub(crate) fn next_after(after: Option<Columns>) -> Part
    ensures { result ≡ part_of after (pos 1) }
{
    match after {
        Some(columns) => Part {
            first: i64::from(columns.first),
            second: columns.second,
            third: columns.third,
            count: 1,
        },
        None => Part {
            first: -1,
            second: 0,
            third: 0,
            count: 1,
        },
    }
}
