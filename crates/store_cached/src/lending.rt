//! How rows that are kept are shared instead of copied.

ghost use Rattle.std.specs.Prelude.{IfOk};
ghost use Rattle.store_cached.specs.Fresh.{SameRows};

use crate::entry::Rows;
use std::alloc::AllocError;

/// The same rows, shared once more. An error comes where they are shared as often as can be counted.
pub(crate) fn lent_rows(rows: &Rows) -> Result<Rows, AllocError>
    ensures { IfOk result (SameRows rows.now) }
{
    match rows {
        Rows::Triples(triples) => Ok(Rows::Triples(triples.clone()?)),
        Rows::Relations(relations) => Ok(Rows::Relations(relations.clone()?)),
    }
}
