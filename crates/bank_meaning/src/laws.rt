//! What holds of every World, of every decision, of the rows that it goes by, of amounts, of releases, of a new account, of sessions, and along every list of requests. The functions change nothing; their contracts are the laws.

ghost use Rattle.bank_meaning.specs.Amounts.{AmountsBound};
ghost use Rattle.bank_meaning.specs.BooksJudged.{BooksAreJudged, BooksDenyNoMore, RowsAreTheChanges};
ghost use Rattle.bank_meaning.specs.CommandsJudged.{CommandsAreJudged, CommandsDenyNoMore, ListingIsDeniedNoMore, OpeningIsDeniedNoMore};
ghost use Rattle.bank_meaning.specs.Headline.{Headline};
ghost use Rattle.bank_meaning.specs.LastWord.{LastWord};
ghost use Rattle.bank_meaning.specs.Laws.{AllowedExactlyWhenHeld, DeniedBeforeTheBooks, FirstByPlace, IdentityIsJudged, NewAccountKeepsBooks, PolicyIsJudged, ReleaseKeepsBooks, ReleasesAreUsedOnce, SessionsChangeNoMore};
ghost use Rattle.bank_meaning.specs.Once.{EachActsOnce};
ghost use Rattle.bank_meaning.specs.Order.{IsInOrder};
ghost use Rattle.bank_meaning.specs.Premises.{PremisesAreMet};
ghost use Rattle.bank_meaning.specs.Questions.{QuestionsChangeNothing};
ghost use Rattle.bank_meaning.specs.Recorded.{RowsSayWhatWasAsked};
ghost use Rattle.bank_meaning.specs.Repeats.{RepliesAreKept, RetriesActOnce, SentAgainBearsItsSlip, SlipsStay};
ghost use Rattle.bank_meaning.specs.Sums.{NoOneExecutesWhatHeCertifies, SumsAlwaysAgree};

use bank_books::World;

/// Each list of a World stands in order of its key. It only looks at the World's lists.
pub fn world_is_in_order(world: &World)
    ensures { IsInOrder world.now }
{
    let _branches = world.branches();
    let _tellers = world.tellers();
    let _accounts = world.accounts();
    let _entries = world.entries();
    let _lines = world.lines();
    let _proofs = world.proofs();
    let _releases = world.releases();
    let _slips = world.slips();
    let policy = world.policy();
    let _users = policy.users();
    let _sets = policy.sets();
    let _relations = policy.relations();
    let _triples = policy.triples();
    let _certifiers = policy.certifiers();
}

/// The rule that a denial names is the first that denies, by its place in the list of rules, in which each stands once, and
/// which today goes by their numbers; and where none is named, none denies.
pub fn first_by_place()
    ensures { FirstByPlace }
{}

/// The rules of the policy do not deny exactly where who asks is known, some relation, some one triple,
/// and one up to the amount holds all that is touched, or a release that is named is valid.
pub fn policy_is_judged()
    ensures { PolicyIsJudged }
{}

/// The rule on identity does not deny a command or the ending of a session exactly where the user who asks is known by
/// their open session, and the opening of one exactly where that user is there and not suspended.
pub fn identity_is_judged()
    ensures { IdentityIsJudged }
{}

/// An operation that a rule of the policy or the rule on slips denies is denied by it in every World of the same policy in which
/// the slip that it bears, if any, is no other, and, where it is the rule on releases, of the same release: of the books nothing
/// but the present day of that release's branch was looked at.
pub fn denied_before_the_books()
    ensures { DeniedBeforeTheBooks }
{}

/// What no rule denies is asked for by whom and where it has to be. Who posts, transfers, corrects, moves the cash of a drawer or
/// puts it off holds that drawer, at a teller of the branch that is named; nobody holds one that is put on, and none of the branch
/// is held where a day is closed. What is corrected was entered by somebody else on the branch's present day, is no correction,
/// has not been undone, and is as it is named. Accounts stay at their floors, drawers and vaults at zero or above. An account that
/// is opened is new, and a release is given to somebody else.
pub fn books_are_judged()
    ensures { BooksAreJudged }
{}

/// And the rules of the books deny no more than that. Of every World that passes both checks, a proper operation that is asked for by
/// whom and where it has to be, is denied by none of them, if the books hold with whatever rows say what was asked and bear who asked,
/// when and on which day. That they do says that each sum stays in the range of money, and that a number was left for each row.
pub fn books_deny_no_more()
    ensures { BooksDenyNoMore }
{}

/// And those rows are the ones that the operation adds: no others say what was asked, with the numbers that come next, and bear who
/// asked, when and on which day.
pub fn rows_are_the_changes()
    ensures { RowsAreTheChanges }
{}

/// Of every World that passes both checks, and of every proper operation: its amount, in cents, is the most by which it moves the
/// balance of a branch, a teller or an account, and the cash of a drawer or a vault, but for a drawer that is put off; the most
/// that a release lets another move; and the most that a new account may go below zero.
pub fn amounts_bound()
    ensures { AmountsBound }
{}

/// Of every World that passes both checks, and of every proper operation that is carried out: the rows that were asked for are there
/// after it and were not before, and each other row was. An entry and a cash line bear the user who asked, the moment, and the day that
/// their branch has, with branch, teller or place, account and amount as asked: a post adds an entry, with no partner and undoing nothing,
/// and the line of its cash; a transfer takes from the one account and gives to the other, by legs that are each other's partners; a
/// correction is minus what was brought, and undoes the entry that is named, and of a transfer the other leg, too; a drawer that is put on
/// or off and a move of cash have a line at each place, and a count the line of its difference. A new account has its home and its floor
/// and nothing in it; the proof of a day that is closed has the entries of its branch, its balance and the cash of its vault, and the
/// branch is on its next day; a release has its giver, its beneficiary, its operation and its day, and is unused, and one that is used up
/// is changed in nothing else. What is not carried out changes nothing.
pub fn rows_say_what_was_asked()
    ensures { RowsSayWhatWasAsked }
{}

/// A balance, a statement, a list of accounts, a proof or the listing of the policy that is asked for leaves the World, whole.
pub fn questions_change_nothing()
    ensures { QuestionsChangeNothing }
{}

/// A command that no rule denies is asked for by a user who is known and not suspended: by an officer to appoint, dismiss, enrol,
/// suspend or restore; by a certifier of the procedure to certify, withdraw, grant or revoke; by any certifier to define a set. What
/// it adds was not there, what it takes away was, and nobody suspends themselves. Who is to execute a procedure neither certifies it nor
/// did, who is to certify one executes none of it, and neither is an officer. The policy is listed to officers alone. Who opens a session
/// is there and not suspended, and has a number left for it; who ends one is known by it.
pub fn commands_are_judged()
    ensures { CommandsAreJudged }
{}

/// And the rules deny no more than that: of every World that passes both checks, a command of which all of it is so is denied by none.
pub fn commands_deny_no_more()
    ensures { CommandsDenyNoMore }
{}

/// Of every World that passes both checks: the policy is listed to each officer who is known.
pub fn listing_is_denied_no_more()
    ensures { ListingIsDeniedNoMore }
{}

/// A session is opened for each user who is there and not suspended, and has a number left for it.
pub fn opening_is_denied_no_more()
    ensures { OpeningIsDeniedNoMore }
{}

/// An operation is allowed exactly when its user is known, some one triple of the user's holds all that it
/// touches, up to its amount or by a valid release, the procedure is certified for that, no rule of the
/// books denies it, and its slip, if it bears one, was not taken for another operation and has room.
pub fn allowed_exactly_when_held()
    ensures { AllowedExactlyWhenHeld }
{}

/// A release that authorizes an operation is valid for none afterwards, and one that is named where a triple
/// of the user's own suffices stays as it was.
pub fn releases_are_used_once()
    ensures { ReleasesAreUsedOnce }
{}

/// Where the books hold, they hold after a release is given that no rule of the books denies, too.
pub fn release_keeps_books()
    ensures { ReleaseKeepsBooks }
{}

/// Where the books hold, they hold after an account is opened that no rule of the books denies, too.
pub fn new_account_keeps_books()
    ensures { NewAccountKeepsBooks }
{}

/// The opening of a session and its ending change nothing but the session of the user who asks.
pub fn sessions_change_no_more()
    ensures { SessionsChangeNoMore }
{}

/// In a policy that keeps executing and certifying apart, no one may execute a procedure that they certify.
pub fn no_one_executes_what_he_certifies()
    ensures { NoOneExecutesWhatHeCertifies }
{}

/// Of every World that passes both checks, and after each request of every list of proper ones, with
/// any marks: the checks pass; each branch, teller and account has gained what the accepted requests
/// move there, and the cash of each branch what its entries brought and its counts differed by; each
/// history has an entry more for each leg; and entries, cash lines and proofs were added alone.
pub fn sums()
    ensures { SumsAlwaysAgree }
{}

/// Of every World that passes both checks, and after each request of every list of proper ones, with
/// any marks: each row of the policy is what the last request says that speaks of it, and where none
/// does what the opening had; no other policy is in force, so every rule says the same, read over that.
/// A request has a word where it is accepted, and where it is a command that finds a version left. And
/// what is asked for leaves the policy alone, where it is an operation, and else the books.
pub fn last_word()
    ensures { LastWord }
{}

/// Of every World, and of every list of requests with any marks and with repeats, in any order: those that
/// are not taken out leave, in a bank that knows no slips, what the list leaves, slips aside, with the same
/// replies.
pub fn once()
    ensures { EachActsOnce }
{}

/// Of every World: after an operation that was accepted with a slip, and any further requests with any marks,
/// what bears that slip with an equal operation gets the same reply and changes nothing, and with another it
/// is denied by its own rule.
pub fn replies_are_kept()
    ensures { RepliesAreKept }
{}

/// What a user who is known sends again with the same slip, in whatever session, at whatever moment and by whatever release, is what
/// gets the reply that was kept.
pub fn sent_again_bears_its_slip()
    ensures { SentAgainBearsItsSlip }
{}

/// Of every World: after any requests with any marks, a user still has each slip, with its operation and its reply.
pub fn slips_stay()
    ensures { SlipsStay }
{}

/// Of every World, and every operation that names a slip: a crash leaves the World before it or the one after it, and sent
/// to either of them it leaves what it leaves once, and is replied what it was replied at first. The same with its slip in
/// another session, at another moment or by another release, where it is answered with 200, is its repeat, or it has acted and
/// the first has not. So who saw no reply sends it again.
pub fn retries_act_once()
    ensures { RetriesActOnce }
{}

/// Of every World that passes both checks, and of every list of proper requests with any marks: each is treated rightly
/// in the World that those before it leave. It is carried out exactly where all of it is held and no rule of the books
/// denies it, and then by whom and where it has to be; else it changes nothing, and the first rule against it is named.
/// It moves its amount at most, and adds the rows that were asked for and no others. No one executes what they certify, and only who may
/// commands and has the policy listed.
/// The sums agree, the policy is that in force by last word, and what bears a slip acts once and gets its first reply.
pub fn headline()
    ensures { Headline }
{}

/// What the laws above suppose is met by what it is named for. An operation with a slip that repeats none and that no rule denies is
/// accepted at its place; the same user's same operation with the same slip is sent again; a crash may leave the World before it and
/// the one after it. The rules before those of the books are the first six, and judge alike where the policy, the slips and, for the
/// one on releases, the releases and branches are the same. No operation but a drawer that is put off may move more cash than its amount.
pub fn premises_are_met()
    ensures { PremisesAreMet }
{}
