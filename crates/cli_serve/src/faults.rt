//! How faults of a stream, and of a port, are reported by the action.

ghost use Rattle.std.specs.Prelude.{◌≡◌};
ghost use Rattle.cli_serve.specs.Faults.{fault_of_port, fault_of_serving};

use cli_file::ActionFault;
use counter_connections::PortFault;
use http_messages::ServeFault;

/// Why a stream was not served to its end.
pub(crate) fn fault_of_serving(fault: ServeFault) -> ActionFault<'static>
    ensures { result ≡ fault_of_serving fault }
{
    match fault {
        ServeFault::Cut => ActionFault::Cut,
        ServeFault::Memory => ActionFault::Memory,
        ServeFault::Read | ServeFault::Write | ServeFault::Report => ActionFault::Broken,
    }
}

/// Why a port was not served to its end.
pub(crate) fn fault_of_port(fault: PortFault) -> ActionFault<'static>
    ensures { result ≡ fault_of_port fault }
{
    match fault {
        PortFault::Broken => ActionFault::Broken,
        PortFault::Memory => ActionFault::Memory,
    }
}
