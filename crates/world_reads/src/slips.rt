//! A user's slips: the one of a number, and how many there are.

ghost use Rattle.std.specs.Prelude.{◌≡◌, IfOk};
ghost use Rattle.std.specs.List.{find};
ghost use Rattle.std.specs.Option.{option_copied};
ghost use Rattle.bank_books.specs.Records.{slip_count};
ghost use Rattle.world_reads.specs.BookReads.{is_slip, slip};

use bank_books::{Slip, World};
use std::alloc::{AllocError, Global};

/// The slip of a user that bears this number, or none where it isn't there. Only memory keeps it from
/// an answer.
pub fn slip(
    alloc: Global,
    world: &World,
    user: u32,
    number: u32,
) -> Result<Option<Slip>, AllocError>
    ensures { IfOk result (λ row. row ≡ slip world.now user number) }
{
    match slip_row(world.slips(), user, number) {
        Some(row) => Ok(Some(copied_slip(alloc, row)?)),
        None => Ok(None),
    }
}

fn slip_row(rows: &[Slip], user: u32, number: u32) -> Option<&Slip>
    ensures { option_copied result ≡ find (is_slip user number) rows.now }
{
    rows.iter()
        .find(|row| row.user() == user && row.number() == number)
}

/// The same slip, with a reply of its own memory.
fn copied_slip(alloc: Global, row: &Slip) -> Result<Slip, AllocError>
    ensures { IfOk result (λ slip. slip ≡ row.now) }
{
    let reply = Vec::from_slice(alloc, row.reply())?;
    Ok(Slip::new(row.user(), row.number(), row.operation(), reply))
}

/// How many slips a user has. It takes no memory.
pub fn slip_count(world: &World, user: u32) -> u64
    ensures { result ≡ slip_count user world.now.slips }
{
    world
        .slips()
        .iter()
        .filter(|slip| slip.user() == user)
        .count() as u64
}
