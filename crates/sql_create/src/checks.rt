//! What a World has to pass before a bank is made of it.

ghost use Rattle.std.specs.Prelude.{◌≡◌, IfErr, IfOk, OnOk};
ghost use Rattle.bank_books.specs.Records.{kept_of};
ghost use Rattle.book_kept.specs.Keepable.{IsKeepable};
ghost use Rattle.sqlite.specs.Schema.{Schema};
ghost use Rattle.sql_create.specs.Made.{IsBank, IsRefusal};

use crate::open_fault::OpenFault;
use bank_books::World;
use book_check::check_books;
use book_kept::laws::books_are_keepable;
use book_sums::Kept;
use policy_check::check_policy;
use std::alloc::Global;

/// The numbers that are kept beside the rows of a World whose books hold and whose policy is sound: the
/// books are checked before the policy.
pub(crate) fn checked(alloc: Global, world: &World) -> Result<Kept, OpenFault>
    ensures kept { IfOk result (λ kept. kept ≡ kept_of world.now) }
    ensures bank { OnOk result (IsBank world.now) }
    ensures keepable { OnOk result (IsKeepable world.now) }
    ensures refused { IfErr result (λ fault. (schema : Schema) → IsRefusal schema world.now fault) }
{
    let kept = match Kept::of(alloc, world) {
        Ok(kept) => kept,
        Err(fault) => return Err(OpenFault::Fault(fault)),
    };
    match check_books(alloc, world, &kept) {
        Ok(Ok(())) => {}
        Ok(Err(fault)) => return Err(OpenFault::Books(fault)),
        Err(fault) => return Err(OpenFault::Fault(fault)),
    }
    if let Err(fault) = check_policy(world.policy()) {
        return Err(OpenFault::Policy(fault));
    }
    books_are_keepable(world);
    Ok(kept)
}
