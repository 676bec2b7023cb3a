//! The tellers of a branch, what a drawer is judged by, and the cash of a vault.

ghost use Rattle.std.specs.Prelude.{◌≡◌, IfOk};
ghost use Rattle.world_reads.specs.BookReads.{drawer, next_teller, roster, vault};

use crate::records::DrawerRecord;
use bank_books::{TellerRecord, World, branch_record, teller_record, teller_record_of};
use std::alloc::{AllocError, Global};

/// The tellers of a branch, by number, each with its balance, its cash and who holds its drawer.
/// Only memory keeps them from an answer.
pub fn roster(alloc: Global, world: &World, branch: u32) -> Result<Vec<TellerRecord>, AllocError>
    ensures { IfOk result (λ rows. rows.items ≡ roster world.now branch) }
{
    world
        .tellers()
        .iter()
        .filter(|row| row.branch == branch)
        .map(|row| teller_record_of(world, row))
        .collect(alloc)
}

/// The next teller of a branch above this number, or none where there is no more. It takes no
/// memory.
pub fn next_teller(world: &World, branch: u32, after: u32) -> Option<TellerRecord>
    ensures { result ≡ next_teller world.now branch after }
{
    let row = world
        .tellers()
        .iter()
        .find(|row| row.branch == branch && row.teller > after)?;
    Some(teller_record_of(world, row))
}

/// What the drawer of a teller is judged by, or none where the teller isn't there. It takes no
/// memory.
pub fn drawer(world: &World, teller: u32) -> Option<DrawerRecord>
    ensures { result ≡ drawer world.now teller }
{
    let row = teller_record(world, teller)?;
    Some(DrawerRecord {
        cash: row.cash,
        holder: row.holder,
    })
}

/// The cash of a branch's vault in cents, or none where the branch isn't there. It takes no memory.
pub fn vault(world: &World, branch: u32) -> Option<i128>
    ensures { result ≡ vault world.now branch }
{
    let row = branch_record(world, branch)?;
    Some(row.vault)
}
