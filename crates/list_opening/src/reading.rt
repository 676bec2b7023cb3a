//! One list read into rows in order of their keys, with the list's name in a fault.

ghost use Rattle.std.specs.Prelude.{◌≡◌, ◌⊎◌, IfErr, IfOk, Ok, Err, map};
ghost use Rattle.std.specs.List.Sorted.{IsNonDecreasingBy};
ghost use Rattle.bank_policy.specs.PolicyKeys.{triple_key};
ghost use Rattle.list_order.specs.Sorted.{in_order};
ghost use Rattle.list_opening.specs.Opening.{listed, triples_of};

use crate::list_fault::{ListFault, ListName};
use crate::list_row::{ListRow, Rows};
use crate::triple_rows::TripleRows;
use bank_policy::Triple;
use keyed_rows::Keyed;
use list_order::sort_rows;
use list_records::{RecordFault, gather};
use std::alloc::Global;

/// The rows of a list in order of their keys, or its first bad record.
pub(crate) fn read_list<T: ListRow + Keyed + Drop>(
    alloc: Global,
    file: ListName,
    text: &[u8],
) -> Result<Vec<T>, ListFault>
    ensures stated { IfOk result (λ rows. listed file T.key T.row_of T.heading text.now ≡ Ok rows.items) }
    ensures in_order { IfOk result (λ rows. IsNonDecreasingBy T.key rows.items) }
    ensures bad { IfErr result (λ fault. (fault ≡ ListFault.Memory) ⊎ (listed file T.key T.row_of T.heading text.now ≡ Err fault)) }
{
    match gather(alloc, text, Rows::new(alloc)) {
        Ok(gathered) => sorted(gathered.into_rows()),
        Err(RecordFault::Bad(row)) => Err(ListFault::BadRow { file, row }),
        Err(RecordFault::Memory) => Err(ListFault::Memory),
    }
}

/// The triples of their list in order of their keys, or its first bad record.
pub(crate) fn read_triples(alloc: Global, text: &[u8]) -> Result<Vec<Triple>, ListFault>
    ensures stated { IfOk result (λ rows. triples_of text.now ≡ Ok rows.items) }
    ensures in_order { IfOk result (λ rows. IsNonDecreasingBy triple_key rows.items) }
    ensures bad { IfErr result (λ fault. (fault ≡ ListFault.Memory) ⊎ (triples_of text.now ≡ Err fault)) }
{
    match gather(alloc, text, TripleRows::new(alloc)) {
        Ok(gathered) => sorted(gathered.into_rows()),
        Err(RecordFault::Bad(row)) => Err(ListFault::BadRow {
            file: ListName::Triples,
            row,
        }),
        Err(RecordFault::Memory) => Err(ListFault::Memory),
    }
}

/// The rows in order of their keys. The only error is that memory is refused.
fn sorted<T: Keyed + Drop>(mut rows: Vec<T>) -> Result<Vec<T>, ListFault>
    ensures rows { IfOk result (λ placed. placed.items ≡ in_order T.key rows.items) }
    ensures in_order { IfOk result (λ placed. IsNonDecreasingBy T.key placed.items) }
    ensures memory { IfErr result (λ fault. fault ≡ ListFault.Memory) }
{
    sort_rows(&mut rows)?;
    Ok(rows)
}
