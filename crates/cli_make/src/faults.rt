//! How faults of the opening lists, and of making a bank, are reported by the action.

ghost use Rattle.std.specs.Prelude.{◌≡◌};
ghost use Rattle.cli_make.specs.Faults.{fault_of_lists, fault_of_making};

use cli_file::ActionFault;
use list_opening::ListFault;
use sql_create::OpenFault;

/// Why no bank is made in a file.
pub(crate) fn fault_of_making(fault: OpenFault) -> ActionFault<'static>
    ensures { result ≡ fault_of_making fault }
{
    match fault {
        OpenFault::Books(fault) => ActionFault::Books(fault),
        OpenFault::Policy(fault) => ActionFault::Policy(fault),
        OpenFault::NotEmpty => ActionFault::NotEmpty,
        OpenFault::Fault(fault) => ActionFault::of_store(fault),
    }
}

/// Why opening lists state no World.
pub(crate) fn fault_of_lists(fault: ListFault) -> ActionFault<'static>
    ensures { result ≡ fault_of_lists fault }
{
    match fault {
        ListFault::Memory => ActionFault::Memory,
        bad => ActionFault::List(bad),
    }
}
