//! What holds of every body. The function does nothing; its contract is the law.

ghost use Rattle.bodies.specs.Laws.{CommandsAreInRange, OperationsAreInRange};

/// Whatever the bytes of a body state, for each procedure and for each command, has its members in their ranges.
pub fn what_is_stated_is_in_range()
    ensures operations { OperationsAreInRange }
    ensures commands { CommandsAreInRange }
{}
