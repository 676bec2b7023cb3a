//! The ten commands of the policy, and the names that paths and replies write.

ghost use Rattle.std.specs.Prelude.{◌≡◌};
ghost use Rattle.policy_commands.specs.Command.{command_named, name_of};

/// The commands of the policy. Clark and Wilson's model lets its lists be changed by those alone who
/// may certify or name who may: certifiers ask for the first five, officers for the others.
#[derive(Clone, Copy, Debug, PartialEq, Eq)]
pub enum Command {
    /// Defines a set of items.
    DefineSet,
    /// Certifies a procedure on a set.
    Certify,
    /// Takes a relation away, and its triples with it.
    Withdraw,
    /// Gives a user a triple.
    Grant,
    /// Takes a triple away.
    Revoke,
    /// Makes a user a certifier of a procedure.
    Appoint,
    /// Takes that away.
    Dismiss,
    /// Takes a user in.
    Enrol,
    /// Keeps a user from asking for anything.
    Suspend,
    /// Ends that.
    Restore,
}

impl Command {
    /// Its name, as paths and replies write it.
    pub fn name(self) -> &'static str
        ensures { result.now ≡ name_of self }
    {
        match self {
            Command::DefineSet => "define-set",
            Command::Certify => "certify",
            Command::Withdraw => "withdraw",
            Command::Grant => "grant",
            Command::Revoke => "revoke",
            Command::Appoint => "appoint",
            Command::Dismiss => "dismiss",
            Command::Enrol => "enrol",
            Command::Suspend => "suspend",
            Command::Restore => "restore",
        }
    }

    /// The command of this name, or none where no command has it.
    pub fn named(name: &str) -> Option<Command>
        ensures { result ≡ command_named name.now }
    {
        match name {
            "define-set" => Some(Command::DefineSet),
            "certify" => Some(Command::Certify),
            "withdraw" => Some(Command::Withdraw),
            "grant" => Some(Command::Grant),
            "revoke" => Some(Command::Revoke),
            "appoint" => Some(Command::Appoint),
            "dismiss" => Some(Command::Dismiss),
            "enrol" => Some(Command::Enrol),
            "suspend" => Some(Command::Suspend),
            "restore" => Some(Command::Restore),
            _ => None,
        }
    }
}
