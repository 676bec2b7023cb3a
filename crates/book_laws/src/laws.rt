//! What holds of every change of each kind. The functions do nothing; their contracts are the laws.

ghost use Rattle.book_laws.specs.Laws.{AccountKeepsBooks, AccountKeepsLedger, AccountMoves, BooksParts, CashBalances, EntryKeepsBooks, EntryKeepsLedger, EntryMoves, EntryStandsLast, LegsKeepBooks, LimitsMoved, LineKeepsBooks, LineKeepsLedger, LineMoves, LinesKeepBooks, LinesOfBranchKeepBooks, MovedTwice, OppositeLegsKeepBooks, PlanMoves, ProofAndDayKeepBooks, ProofAndDayKeepLedger, ProofAndDayMoveNothing, ReleaseKeepsBooks, ReleaseKeepsLedger, ReleaseMovesNothing, SessionKeepsBooks, SessionKeepsLedger, SessionMovesNothing, SlipKeepsBooks, UsedKeepsBooks, UsedKeepsLedger, UsedMovesNothing};

/// The books hold exactly where the ledger does and all that rows come to is within the limits.
pub fn books_parts()
    ensures { BooksParts }
{}

/// Limits that held, and that hold of what moved, hold.
pub fn limits_moved()
    ensures { LimitsMoved }
{}

/// What is moved twice is moved by both amounts together.
pub fn moved_twice()
    ensures { MovedTwice }
{}

/// An entry that may come next keeps the ledger, though the entries that it names are still to come.
pub fn entry_keeps_ledger()
    ensures { EntryKeepsLedger }
{}

/// An entry moves its branch, its teller and its account by its delta, and nothing else.
pub fn entry_moves()
    ensures { EntryMoves }
{}

/// The balance after the next entry is its account's, and those after earlier entries stay.
pub fn entry_stands_last()
    ensures { EntryStandsLast }
{}

/// Where the books hold, they hold with the next entry, if there is room for it and the entries that it
/// names are there.
pub fn entry_keeps_books()
    ensures { EntryKeepsBooks }
{}

/// Where the books hold, they hold with two entries that name each other, as the legs of a transfer, if
/// there is room for both together.
pub fn legs_keep_books()
    ensures { LegsKeepBooks }
{}

/// The same of two whose deltas are opposite: of the branch only its number of entries needs room, and of
/// the teller nothing does.
pub fn opposite_legs_keep_books()
    ensures { OppositeLegsKeepBooks }
{}

/// An account that is not there yet and opens with nothing keeps the ledger.
pub fn account_keeps_ledger()
    ensures { AccountKeepsLedger }
{}

/// It moves the count of accounts of its home, no balance and no cash.
pub fn account_moves()
    ensures { AccountMoves }
{}

/// Where the books hold, they hold with the account, if its home has room for it.
pub fn account_keeps_books()
    ensures { AccountKeepsBooks }
{}

/// The proof of a branch's present day keeps the ledger, together with the branch's next day.
pub fn proof_and_day_keep_ledger()
    ensures { ProofAndDayKeepLedger }
{}

/// They move no balance and no cash.
pub fn proof_and_day_move_nothing()
    ensures { ProofAndDayMoveNothing }
{}

/// Where the books hold, they hold with both.
pub fn proof_and_day_keep_books()
    ensures { ProofAndDayKeepBooks }
{}

/// A release that is used keeps the ledger: its mark is in no condition.
pub fn used_keeps_ledger()
    ensures { UsedKeepsLedger }
{}

/// It moves no balance and no cash.
pub fn used_moves_nothing()
    ensures { UsedMovesNothing }
{}

/// Where the books hold, they hold with the release used.
pub fn used_keeps_books()
    ensures { UsedKeepsBooks }
{}

/// A release that may come next keeps the ledger.
pub fn release_keeps_ledger()
    ensures { ReleaseKeepsLedger }
{}

/// It moves no balance and no cash.
pub fn release_moves_nothing()
    ensures { ReleaseMovesNothing }
{}

/// Where the books hold, they hold with the release.
pub fn release_keeps_books()
    ensures { ReleaseKeepsBooks }
{}

/// A session, begun or ended, keeps the ledger: it touches users alone.
pub fn session_keeps_ledger()
    ensures { SessionKeepsLedger }
{}

/// It moves no balance and no cash.
pub fn session_moves_nothing()
    ensures { SessionMovesNothing }
{}

/// Where the books hold, they hold with the session.
pub fn session_keeps_books()
    ensures { SessionKeepsBooks }
{}

/// The cash of a branch balances exactly where its gap is 0.
pub fn cash_balances()
    ensures { CashBalances }
{}

/// A cash line that may come next keeps the ledger but for the equation of cash.
pub fn line_keeps_ledger()
    ensures { LineKeepsLedger }
{}

/// A line moves the cash of its place by its amount and the gap of its branch by its share, and nothing else.
pub fn line_moves()
    ensures { LineMoves }
{}

/// Where the books hold, they hold with the next line, if there is room for it and it explains itself.
pub fn line_keeps_books()
    ensures { LineKeepsBooks }
{}

/// Where the books hold, they hold with several lines that leave each branch's gap together, as those of
/// cash that is moved, if all they come to is within the limits.
pub fn lines_keep_books()
    ensures { LinesKeepBooks }
{}

/// The same of lines of one branch, if there is room for what all of them come to at its vault and at each
/// drawer that they name.
pub fn lines_of_branch_keep_books()
    ensures { LinesOfBranchKeepBooks }
{}

/// A plan of entries and cash lines moves balances, entries and the cash of entries by what its changes add
/// together, only adds rows, and leaves proofs, branches and policy.
pub fn plan_moves()
    ensures { PlanMoves }
{}

/// A slip that may come next keeps the books.
pub fn slip_keeps_books()
    ensures { SlipKeepsBooks }
{}
