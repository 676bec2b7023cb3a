//! How faults of a place and of its connections are reported by the action.

ghost use Rattle.cli_counter.specs.Faults.{IsOfCounter};

use cli_file::ActionFault;
use std::io;
use std::io::ErrorKind;

/// Why a place could not be acquired, or its connections not served to the end.
pub(crate) fn fault_of(error: &io::Error) -> ActionFault<'static>
    ensures { IsOfCounter result }
{
    if error.kind() == ErrorKind::OutOfMemory {
        ActionFault::Memory
    } else {
        ActionFault::Broken
    }
}
