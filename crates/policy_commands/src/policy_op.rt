//! What each command of the policy asks for: its members, as data.

ghost use Rattle.std.specs.Prelude.{◌≡◌};
ghost use Rattle.policy_commands.specs.PolicyOp.{command_of};

use crate::command::Command;
use bank_policy::{Certifier, ItemSet, Name, RelationKey, Triple, TripleKey};

/// A user who is taken in.
#[derive(Debug, Drop)]
pub struct Enrolment {
    /// The user's number, 1 to 9,999.
    pub user: u32,
    /// The user's name, 1 to 20 bytes of printable ASCII.
    pub name: Name,
    /// Whether the user is an officer.
    pub officer: bool,
}

/// A user, by number.
#[derive(Clone, Copy, Debug, PartialEq, Eq)]
pub struct UserKey {
    /// The user's number, 1 to 9,999.
    pub user: u32,
}

/// What is asked of the policy: a command with its members.
#[derive(Debug, Drop)]
pub enum PolicyOp {
    /// The set to define: its number, and its members in their order.
    DefineSet(ItemSet),
    /// The relation to certify. Who asks is the one it stands by.
    Certify(RelationKey),
    /// The relation to take away.
    Withdraw(RelationKey),
    /// The triple to give.
    Grant(Triple),
    /// The triple to take away.
    Revoke(TripleKey),
    /// The certifier to name.
    Appoint(Certifier),
    /// The certifier to dismiss.
    Dismiss(Certifier),
    /// The user to take in.
    Enrol(Enrolment),
    /// The user to suspend.
    Suspend(UserKey),
    /// The user to let ask again.
    Restore(UserKey),
}

impl PolicyOp {
    /// Which command it is.
    pub fn command(&self) -> Command
        ensures { result ≡ command_of self.now }
    {
        match self {
            PolicyOp::DefineSet(_) => Command::DefineSet,
            PolicyOp::Certify(_) => Command::Certify,
            PolicyOp::Withdraw(_) => Command::Withdraw,
            PolicyOp::Grant(_) => Command::Grant,
            PolicyOp::Revoke(_) => Command::Revoke,
            PolicyOp::Appoint(_) => Command::Appoint,
            PolicyOp::Dismiss(_) => Command::Dismiss,
            PolicyOp::Enrol(_) => Command::Enrol,
            PolicyOp::Suspend(_) => Command::Suspend,
            PolicyOp::Restore(_) => Command::Restore,
        }
    }
}
