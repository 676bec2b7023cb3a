//! What holds of the reads of every World. The functions do nothing; their contracts are the laws.

ghost use Rattle.world_reads.specs.Laws.{EntriesEndWithTurns, EntriesStandByTurn, FirstLineIsNext, FirstShownIsNext, NextLineFollows, ShownGoesOn};

/// Each of the entries listed from a turn on is the one of its turn.
pub fn entries_stand_by_turn()
    ensures { EntriesStandByTurn }
{}

/// Where fewer entries are listed than were asked for, the turn after the last isn't there.
pub fn entries_end_with_turns()
    ensures { EntriesEndWithTurns }
{}

/// The first of the accounts that a user is shown is the next one.
pub fn first_shown_is_next()
    ensures { FirstShownIsNext }
{}

/// The first line of the policy is the next one where no key is given.
pub fn first_line_is_next()
    ensures { FirstLineIsNext }
{}

/// Where no two accounts bear one number, the first of those that a user is shown is followed by the
/// ones above it. So the accounts read one by one are those of the list.
pub fn shown_goes_on()
    ensures { ShownGoesOn }
{}

/// In a sound policy the line after the key of one is the next of the list. So the lines read one by one are
/// those of the list.
pub fn next_line_follows()
    ensures { NextLineFollows }
{}
