//! Who holds each drawer, found in one pass over the cash lines.

ghost use Rattle.std.specs.Prelude.{◌≡◌, ℕ, IfOk, map};
ghost use Rattle.std.specs.BTreeMap.{get};
ghost use Rattle.std.specs.Ordering.{nat_cmp};
ghost use Rattle.bank_books.specs.Cash.{holder_of};

use bank_books::{CashLine, LineForm, Teller};
use std::alloc::{AllocError, Global};
use std::collections::BTreeMap;

/// Who holds the drawer of each teller, in the order of the tellers: the user who put it on, or
/// none. It goes over the lines once, and fails only where memory is refused.
pub(crate) fn holders(
    alloc: Global,
    tellers: &[Teller],
    lines: &[CashLine],
) -> Result<Vec<Option<u32>>, AllocError>
    ensures { IfOk result (λ holders. holders.items ≡ map (λ t. holder_of lines.now t.teller) tellers.now) }
{
    let held = held_drawers(alloc, lines)?;
    let mut holders = Vec::with_capacity(alloc, tellers.len())?;
    for row in tellers {
        holders.push(held.get(&row.teller).copied())?;
    }
    Ok(holders)
}

/// The drawers that are on after the lines, by their tellers, each with the user who holds it.
fn held_drawers(alloc: Global, lines: &[CashLine]) -> Result<BTreeMap<u32, u32>, AllocError>
    ensures { IfOk result (λ held. (teller : ℕ) → get nat_cmp held teller ≡ holder_of lines.now teller) }
{
    let mut held = BTreeMap::new(alloc);
    for line in lines {
        match line.form {
            LineForm::On => {
                held.insert(line.place, line.user)?;
            }
            LineForm::Off => {
                held.remove(&line.place);
            }
            LineForm::CashEntry | LineForm::Move | LineForm::Difference => {}
        }
    }
    Ok(held)
}
