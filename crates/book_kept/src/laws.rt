//! What holds of every World whose numbers can be kept, and which those are. The functions do nothing; their
//! contracts are the laws.

ghost use Rattle.bank_books.specs.Books.{Books};
ghost use Rattle.book_kept.specs.Keepable.{HasDistinctRows, IsKeepable};
ghost use Rattle.book_kept.specs.Laws.{DayIsKept, PolicyIsKept, ProofIsKept, RowsDetermineAnswers, SessionIsKept, SlipIsKept, SheetsAreOrdered, SheetsDetermineWorld, UsedIsKept, VersionIsKept};

use bank_books::World;

/// A World whose books hold, and no key of whose policy stands twice, can be kept. It only looks at the
/// World's lists, which stand in order.
pub fn books_are_keepable(world: &World)
    ensures { Books world.now → HasDistinctRows world.now.policy → IsKeepable world.now }
{
    let _branches = world.branches();
    let _tellers = world.tellers();
    let _accounts = world.accounts();
    let _entries = world.entries();
    let _lines = world.lines();
    let _proofs = world.proofs();
    let _releases = world.releases();
    let _slips = world.slips();
    let policy = world.policy();
    let _users = policy.users();
    let _sets = policy.sets();
    let _relations = policy.relations();
    let _triples = policy.triples();
    let _certifiers = policy.certifiers();
}

/// The proof of a day moves no number, and stands among the proofs.
pub fn proof_is_kept()
    ensures { ProofIsKept }
{}

/// The next day of a branch moves no number.
pub fn day_is_kept()
    ensures { DayIsKept }
{}

/// A release that is used up moves no number.
pub fn used_is_kept()
    ensures { UsedIsKept }
{}

/// A user's session moves no number.
pub fn session_is_kept()
    ensures { SessionIsKept }
{}

/// A slip that its user has not is kept as a row of its own.
pub fn slip_is_kept()
    ensures { SlipIsKept }
{}

/// A change of the policy moves no number, and a new user has no releases.
pub fn policy_is_kept()
    ensures { PolicyIsKept }
{}

/// The next version of the policy moves no number but its own.
pub fn version_is_kept()
    ensures { VersionIsKept }
{}

/// The rows of each table stand in order of their keys, each once.
pub fn sheets_are_ordered()
    ensures { SheetsAreOrdered }
{}

/// The rows and the numbers beside them determine the World.
pub fn sheets_determine_world()
    ensures { SheetsDetermineWorld }
{}

/// The row of a key, with its numbers, is what the World answers of that key.
pub fn rows_determine_answers()
    ensures { RowsDetermineAnswers }
{}
