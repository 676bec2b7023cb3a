//! The sample bank in lists, whose books and policy are checked first.

ghost use Rattle.std.specs.Prelude.{IfOk, OnOk};
ghost use Rattle.bank_meaning.specs.Sums.{PassesChecks};
ghost use Rattle.store_rows.specs.ListStore.{list_status};
ghost use Rattle.sample_service.specs.Serving.{IsOpening};

use bank_books::World;
use bank_meaning::laws::world_is_in_order;
use book_check::check_books;
use book_sums::Kept;
use policy_check::check_policy;
use sample_bank::sample_world;
use std::alloc::{AllocError, Global};
use store_rows::ListStore;

/// The sample bank as its books are opened, in lists. They pass both checks, which are made; so only memory keeps
/// it from one.
pub fn listed_sample(alloc: Global) -> Result<ListStore, AllocError>
    ensures { IfOk result (IsOpening list_status) }
{
    let world = sample_world(alloc)?;
    require_checks(alloc, &world)?;
    Ok(ListStore::new(world))
}

/// Makes both checks of a World, and passes if the World passes them.
fn require_checks(alloc: Global, world: &World) -> Result<(), AllocError>
    ensures { OnOk result (PassesChecks world.now) }
{
    world_is_in_order(world);
    let Ok(kept) = Kept::of(alloc, world) else {
        return Err(AllocError);
    };
    match check_books(alloc, world, &kept) {
        Ok(Ok(())) => {}
        _ => return Err(AllocError),
    }
    match check_policy(world.policy()) {
        Ok(()) => Ok(()),
        Err(_) => Err(AllocError),
    }
}
