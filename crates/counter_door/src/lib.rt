//! The sockets of `counter`, and what is known of each. A door gives connections (`Door`), whose streams take and give bytes without a
//! wait (`TwoWay`); which of them are ready a `Readiness` reports. `Recorded` remembers for proofs all that was read of a stream and written
//! to it, and `Entrance` what a listener gave. No clause says which bytes the calls below these move: those of mio, and those that
//! cli_counter makes of them for an accepted stream.
#![tactic(auto)]

mod calls;
mod door;
mod entrance;
mod log;
mod parted;
mod readiness;
mod recorded;
mod sockets;

pub use door::{Door, TwoWay};
pub use entrance::Entrance;
pub use parted::Parted;
pub use readiness::{Readiness, Ready, System};
pub use recorded::Recorded;
pub use sockets::{Accepts, Socket};
