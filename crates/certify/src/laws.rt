//! What holds of every command that no rule denies. The functions do nothing; their contracts are the laws.

ghost use Rattle.certify.specs.Laws.{CommandKeepsBooks, CommandKeepsSeparation, CommandKeepsSoundness};

/// Of a policy without dangling rows a command that no rule denies makes one without.
pub fn command_keeps_soundness()
    ensures { CommandKeepsSoundness }
{}

/// Who certifies a procedure still executes none of it, and an officer still does neither.
pub fn command_keeps_separation()
    ensures { CommandKeepsSeparation }
{}

/// The books still hold, where the version of the policy has room for one more.
pub fn command_keeps_books()
    ensures { CommandKeepsBooks }
{}
