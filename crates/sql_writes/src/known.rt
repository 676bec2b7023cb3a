//! Rows of the books that were read or written last, so that they need not be read again.

ghost use Rattle.std.specs.Prelude.{◌≡◌, ◌==◌, IfSome, Some};
ghost use Rattle.std.specs.List.{find};
ghost use Rattle.bank_books.specs.Effects.{all_written};
ghost use Rattle.bank_books.specs.Records.{account_record, branch_record, slip_count, teller_record};
ghost use Rattle.bank_books.specs.WorldLists.{WorldLists};
ghost use Rattle.book_kept.specs.Sheets.{sheets_of, slip_no};
ghost use Rattle.sql_writes.specs.Known.{AreKnownOf, AreLeftBy, AreLegsLeft, IsAccountOf, IsBranchOf, IsKeptOf, IsSlipCountOf, IsTellerOf, is_of_books, moves_books};

use bank_books::{AccountRecord, BranchRecord, Entry, RowWrite, TellerRecord};
use book_kept::{EntryRows, KeptTeller, LegRows, SlipCount};

/// Two accounts at most, one teller and one branch, with their numbers, and how many slips one user has.
#[derive(Clone, Copy, Debug, PartialEq, Eq)]
pub struct KnownRows {
    account: Option<AccountRecord>,
    other: Option<AccountRecord>,
    teller: Option<TellerRecord>,
    branch: Option<BranchRecord>,
    slips: Option<SlipCount>,
}

/// The account, if it is that of this number.
fn account_at(row: &Option<AccountRecord>, number: u32) -> Option<AccountRecord>
    ensures { (w : WorldLists) → IfSome row.now (IsAccountOf w) → IfSome result (λ a. account_record w number ≡ Some a) }
{
    match row {
        Some(it) if it.row.account == number => Some(*it),
        _ => None,
    }
}

/// The teller, if it is that of this number.
fn teller_at(row: &Option<TellerRecord>, number: u32) -> Option<TellerRecord>
    ensures { (w : WorldLists) → IfSome row.now (IsTellerOf w) → IfSome result (λ t. teller_record w number ≡ Some t) }
{
    match row {
        Some(it) if it.row.teller == number => Some(*it),
        _ => None,
    }
}

/// The branch, if it is that of this number.
fn branch_at(row: &Option<BranchRecord>, number: u32) -> Option<BranchRecord>
    ensures { (w : WorldLists) → IfSome row.now (IsBranchOf w) → IfSome result (λ b. branch_record w number ≡ Some b) }
{
    match row {
        Some(it) if it.row.branch == number => Some(*it),
        _ => None,
    }
}

/// This row as the account of this number, of which it is the row.
fn account_of(number: u32, row: &AccountRecord) -> Option<AccountRecord>
    ensures { (w : WorldLists) → (row.now.row.account ≡ number → account_record w number ≡ Some row.now) → IfSome result (IsAccountOf w) }
{
    if row.row.account == number {
        Some(*row)
    } else {
        None
    }
}

/// This row as the teller of this number, of which it is the row.
fn teller_of(number: u32, row: &TellerRecord) -> Option<TellerRecord>
    ensures { (w : WorldLists) → (row.now.row.teller ≡ number → teller_record w number ≡ Some row.now) → IfSome result (IsTellerOf w) }
{
    if row.row.teller == number {
        Some(*row)
    } else {
        None
    }
}

/// The teller of this number, of which this row is kept.
fn kept_of(number: u32, row: &KeptTeller) -> Option<TellerRecord>
    ensures { (w : WorldLists) → (row.now.row.teller ≡ number → IsKeptOf w number row.now) → IfSome result (IsTellerOf w) }
{
    if row.row.teller == number {
        Some(row.to_record())
    } else {
        None
    }
}

/// This row as the branch of this number, of which it is the row.
fn branch_of(number: u32, row: &BranchRecord) -> Option<BranchRecord>
    ensures { (w : WorldLists) → (row.now.row.branch ≡ number → branch_record w number ≡ Some row.now) → IfSome result (IsBranchOf w) }
{
    if row.row.branch == number {
        Some(*row)
    } else {
        None
    }
}

/// The rows that an entry, or an entry and the line of its cash, left, and the slips that were known before.
pub(crate) fn known_after(known: &KnownRows, entry: &Entry, rows: &EntryRows) -> KnownRows
    ensures { (w : WorldLists) → AreLeftBy w entry.now rows.now → IfSome known.now.slips (IsSlipCountOf w) → AreKnownOf w result }
{
    KnownRows {
        account: account_of(entry.account, &rows.account),
        other: None,
        teller: kept_of(entry.teller, &rows.teller),
        branch: branch_of(entry.branch, &rows.branch),
        slips: known.slips,
    }
}

/// The rows that two entries of one teller and one branch left, but the account of the first, and the slips that were known before.
pub(crate) fn known_after_legs(
    known: &KnownRows,
    first: &Entry,
    second: &Entry,
    rows: &LegRows,
) -> KnownRows
    ensures { (w : WorldLists) → AreLegsLeft w first.now second.now rows.now → IfSome known.now.slips (IsSlipCountOf w) → AreKnownOf w result }
{
    KnownRows {
        account: account_of(second.account, &rows.target),
        other: None,
        teller: kept_of(first.teller, &rows.teller),
        branch: branch_of(first.branch, &rows.branch),
        slips: known.slips,
    }
}

impl KnownRows {
    /// None is known.
    pub fn nothing() -> KnownRows
        ensures { (w : WorldLists) → AreKnownOf w result }
    {
        KnownRows {
            account: None,
            other: None,
            teller: None,
            branch: None,
            slips: None,
        }
    }

    /// The account of this number, if it is known.
    pub fn account(&self, number: u32) -> Option<AccountRecord>
        ensures { (w : WorldLists) → AreKnownOf w self.now → IfSome result (λ a. account_record w number ≡ Some a) }
    {
        match account_at(&self.account, number) {
            Some(row) => Some(row),
            None => account_at(&self.other, number),
        }
    }

    /// The teller of this number, if it is known.
    pub fn teller(&self, number: u32) -> Option<TellerRecord>
        ensures { (w : WorldLists) → AreKnownOf w self.now → IfSome result (λ t. teller_record w number ≡ Some t) }
    {
        teller_at(&self.teller, number)
    }

    /// The branch of this number, if it is known.
    pub fn branch(&self, number: u32) -> Option<BranchRecord>
        ensures { (w : WorldLists) → AreKnownOf w self.now → IfSome result (λ b. branch_record w number ≡ Some b) }
    {
        branch_at(&self.branch, number)
    }

    /// How many slips a user has, if it is known: the row that is kept of that.
    pub(crate) fn slip_count(&self, user: u32) -> Option<SlipCount>
        ensures { (w : WorldLists) → AreKnownOf w self.now → IfSome result (λ c. find (λ it. slip_no it == user) (sheets_of w).slip_counts ≡ Some c) }
    {
        match &self.slips {
            Some(it) if it.user == user => Some(*it),
            _ => None,
        }
    }

    /// How many slips a user has, if it is known.
    pub fn slips(&self, user: u32) -> Option<u64>
        ensures { (w : WorldLists) → AreKnownOf w self.now → IfSome result (λ n. n ≡ slip_count user w.slips) }
    {
        match self.slip_count(user) {
            Some(count) => Some(count.slips),
            None => None,
        }
    }

    /// Keeps how many slips a user has.
    pub(crate) fn keep_slips(&mut self, count: &SlipCount)
        ensures { self.new ≡ record self.old { slips = Some count.now } }
    {
        self.slips = Some(*count);
    }

    /// Keeps the account of this number, and the one that was kept before it.
    pub fn keep_account(&mut self, number: u32, row: &AccountRecord)
        ensures { (w : WorldLists) → account_record w number ≡ Some row.now → AreKnownOf w self.old → AreKnownOf w self.new }
    {
        self.other = self.account;
        self.account = account_of(number, row);
    }

    /// Keeps the teller of this number.
    pub fn keep_teller(&mut self, number: u32, row: &TellerRecord)
        ensures { (w : WorldLists) → teller_record w number ≡ Some row.now → AreKnownOf w self.old → AreKnownOf w self.new }
    {
        self.teller = teller_of(number, row);
    }

    /// Keeps the branch of this number.
    pub fn keep_branch(&mut self, number: u32, row: &BranchRecord)
        ensures { (w : WorldLists) → branch_record w number ≡ Some row.now → AreKnownOf w self.old → AreKnownOf w self.new }
    {
        self.branch = branch_of(number, row);
    }

    /// Gives up all if these changes may be of any such row. How many slips a user has is given up at each change.
    pub fn forget(&mut self, plan: &[RowWrite])
        ensures { (w : WorldLists) → AreKnownOf w self.old → AreKnownOf (all_written plan.now w) self.new }
    {
        if plan.is_empty() {
            return;
        }
        if moves_books(plan) {
            *self = KnownRows::nothing();
        } else {
            self.slips = None;
        }
    }
}

/// Whether a change may be one of an account, a teller or a branch.
fn is_of_books(row: &RowWrite) -> bool
    ensures { result ≡ is_of_books row.now }
{
    matches!(
        row,
        RowWrite::Account(_) | RowWrite::Entry(_) | RowWrite::Line(_) | RowWrite::Day(_)
    )
}

/// Whether some change may be.
fn moves_books(plan: &[RowWrite]) -> bool
    ensures { result ≡ moves_books plan.now }
{
    plan.iter().any(|row| is_of_books(row))
}
