//! Reads the eight opening lists as the World that they state.

ghost use Rattle.std.specs.Prelude.{map};
ghost use Rattle.cli_make.specs.Lists.{IsOpeningGathered, IsOpeningRead, IsStatedBy};

use crate::faults::fault_of_lists;
use crate::folder::Folder;
use bank_books::World;
use cli_file::{ActionFault, Lists};
use list_opening::{ListName, read_lists};
use std::alloc::Global;

/// The opening lists of a bank, wherever they stand.
pub trait OpeningLists {
    ghost use Rattle.std.specs.Prelude.{ℕ, List, Option, IfErr, IfOk};
    ghost use Rattle.list_opening.specs.declared.list_fault.ListName.{ListName as TheList};
    ghost use Rattle.cli_file.specs.Faults.{IsOfFile};
    ghost use Rattle.cli_file.specs.Texts.{IsTextOf};

    /// The bytes of each list, where they are known.
    ghost known: { Self → TheList → Option (List ℕ) };

    /// The text of this list.
    fn read(&self, alloc: Global, list: ListName) -> Result<Vec<u8>, ActionFault<'static>>
        ensures text { IfOk result (λ text. IsTextOf (known self.now list) text.items) }
        ensures refused { IfErr result IsOfFile };
}

/// The World that the eight opening lists state. All are read before one is judged.
pub fn opening_of<L: OpeningLists>(alloc: Global, lists: &L) -> Result<World, ActionFault<'static>>
    ensures { IsOpeningGathered (L.known lists.now) result }
{
    let branches = lists.read(alloc, ListName::Branches)?;
    let tellers = lists.read(alloc, ListName::Tellers)?;
    let accounts = lists.read(alloc, ListName::Accounts)?;
    let users = lists.read(alloc, ListName::Users)?;
    let sets = lists.read(alloc, ListName::Sets)?;
    let relations = lists.read(alloc, ListName::Relations)?;
    let triples = lists.read(alloc, ListName::Triples)?;
    let certifiers = lists.read(alloc, ListName::Certifiers)?;
    let texts: [&[u8]; 8] = [
        &branches,
        &tellers,
        &accounts,
        &users,
        &sets,
        &relations,
        &triples,
        &certifiers,
    ];
    stated(alloc, &texts)
}

/// The World that the texts of eight opening lists state.
fn stated(alloc: Global, texts: &[&[u8]; 8]) -> Result<World, ActionFault<'static>>
    ensures { IsStatedBy (map (λ t. t.now) texts.now) result }
{
    match read_lists(alloc, texts) {
        Ok(world) => Ok(world),
        Err(fault) => Err(fault_of_lists(fault)),
    }
}

/// The World that the eight opening lists in a folder state.
pub fn read_opening<L: Lists>(
    alloc: Global,
    lists: &L,
    dir: &str,
) -> Result<World, ActionFault<'static>>
    ensures { IsOpeningRead L.text dir.now result }
{
    opening_of(alloc, &Folder { lists, dir })
}
