//! Members of sets grouped into their sets.

ghost use Rattle.std.specs.Prelude.{◌≡◌, ◌<◌, IfOk, drop, length};
ghost use Rattle.list_opening.specs.Sets.{ends_set, grouped};

use crate::set_member::SetMember;
use bank_policy::ItemSet;
use std::alloc::{AllocError, Global};
use std::mem;

/// The sets of these members, of which those of one set stand next to each other.
pub(crate) fn item_sets(alloc: Global, rows: &[SetMember]) -> Result<Vec<ItemSet>, AllocError>
    ensures { IfOk result (λ sets. sets.items ≡ grouped rows.now) }
{
    let mut sets = Vec::new(alloc);
    let mut members = Vec::new(alloc);
    for (i, row) in rows.iter().enumerate() {
        members.push(row.member)?;
        if ends_set(rows, i) {
            let own = mem::replace(&mut members, Vec::new(alloc));
            sets.push(ItemSet::new(row.set, own))?;
        }
    }
    Ok(sets)
}

/// Whether no member of the same set stands after this place.
fn ends_set(rows: &[SetMember], i: usize) -> bool
    requires { i < length rows.now }
    ensures { result ≡ ends_set rows.now i }
{
    match rows.get(i + 1) {
        Some(next) => next.set != rows[i].set,
        None => true,
    }
}
