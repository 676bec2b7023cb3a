//! Reads the list of badges by which the users of a served bank are known.

ghost use Rattle.cli_file.specs.Texts.{AreBadgesRead};

use crate::fault::ActionFault;
use crate::lists::Lists;
use list_opening::{Badges, read_badges};
use std::alloc::Global;

/// The badges of the list at this path.
pub fn read_badge_list<'a, L: Lists>(
    alloc: Global,
    lists: &L,
    list: &'a str,
) -> Result<Badges, ActionFault<'a>>
    ensures { AreBadgesRead list.now (L.text list.now) result }
{
    let text = lists.read(alloc, list)?;
    match read_badges(alloc, &text) {
        Ok(badges) => Ok(badges),
        Err(fault) => Err(ActionFault::of_badges(list, fault)),
    }
}
