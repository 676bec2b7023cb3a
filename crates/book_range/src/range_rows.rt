//! The limits of each kind of row, and of the numbers that are kept beside it.

ghost use Rattle.std.specs.Prelude.{◌↔◌, ◌≤◌, ◌≤ℤ◌, IfSome, IsTrue, pos};
ghost use Rattle.bank_terms.specs.Limits.{max_key, max_accounts, min_floor};
ghost use Rattle.money.specs.Range.{IsCents};
ghost use Rattle.row_members.specs.Ranges.{IsKey, IsWithin};
ghost use Rattle.book_sums.specs.Sums.{AreSumsOf};
ghost use Rattle.bank_books.specs.Range.{HasDistinctKeys, HoldsOperation, HoldsReleasable, IsSlipInRange, IsAccountInRange, IsBranchInRange, IsDay, IsProofInRange, IsTellerInRange, IsUserNumber};
ghost use Rattle.row_members.specs.Ranges.{IsCash};
ghost use Rattle.book_range.specs.RangeParts.{AreCashBooksInRange, IsEntryLimited, IsLineLimited, IsReleaseAlone};

use crate::named::{is_branch, is_entry_or_none, is_user};
use crate::numbering::has_numbered_days;
use bank_books::{
    Account, AccountRecord, Branch, BranchRecord, CashLine, EntryRecord, Proof, Release, Slip,
    TellerRecord, World,
};
use bank_policy::User;
use bank_terms::{
    MAX_ACCOUNTS, MAX_DAY, MAX_KEY, MAX_MOMENT, MAX_RELEASES, MAX_SLIPS, MAX_USER, MIN_FLOOR,
};
use book_sums::Sums;
use counter_ops::{Op, Releasable};
use money::MAX_CENTS;

/// Whether what is kept of a branch is within its limits, and its proofs are those of the days
/// before its present one.
pub(crate) fn is_branch_in_range(world: &World, sums: &Sums, branch: &BranchRecord) -> bool
    requires distinct { HasDistinctKeys world.now }
    requires days { AreCashBooksInRange world.now }
    requires sums { AreSumsOf world.now sums.now }
    ensures { IsTrue result ↔ IsBranchInRange world.now.accounts world.now.proofs branch.now }
{
    is_branch_row_in_range(&branch.row)
        && are_balances_in_range(branch)
        && are_totals_in_range(branch)
        && are_counts_in_range(branch)
        && has_numbered_days(world, &branch.row)
        && sums.by_home.count_of(branch.row.branch) <= MAX_ACCOUNTS
}

/// Whether a slip is within its limits: its user is there and has no more than there may be, and it holds
/// an operation of a form that takes slips.
pub(crate) fn is_slip_in_range(world: &World, sums: &Sums, slip: &Slip) -> bool
    requires { AreSumsOf world.now sums.now }
    ensures { IsTrue result ↔ IsSlipInRange world.now.slips world.now.policy.users slip.now }
{
    is_user(world, slip.user())
        && is_key(slip.number())
        && slip.operation().form.takes_slip()
        && holds_operation(slip)
        && sums.slips_by_user.count_of(slip.user()) <= MAX_SLIPS
}

/// Whether the row of a slip holds an operation, with all its members in their ranges.
fn holds_operation(slip: &Slip) -> bool
    ensures { IsTrue result ↔ HoldsOperation slip.now }
{
    Op::from_row(&slip.operation()).is_some()
}

fn is_branch_row_in_range(row: &Branch) -> bool
    ensures { IsTrue result ↔ (IsKey row.now.branch × IsDay row.now.day × IsCash row.now.cash) }
{
    is_key(row.branch) && is_day(row.day) && is_cash(i128::from(row.cash.get()))
}

fn are_balances_in_range(branch: &BranchRecord) -> bool
    ensures { IsTrue result ↔ (IsCents branch.now.balance × IsCash branch.now.vault × IsCents branch.now.history) }
{
    is_cents(branch.balance) && is_cash(branch.vault) && is_cents(branch.history)
}

fn are_totals_in_range(branch: &BranchRecord) -> bool
    ensures { IsTrue result ↔ (IsCents branch.now.drawers × IsCents branch.now.cash_entries × IsCents branch.now.differences) }
{
    is_cents(branch.drawers) && is_cents(branch.cash_entries) && is_cents(branch.differences)
}

fn are_counts_in_range(branch: &BranchRecord) -> bool
    ensures { IsTrue result ↔ ((branch.now.entries ≤ max_key) × (branch.now.lines ≤ max_key) × (branch.now.accounts ≤ max_accounts)) }
{
    branch.entries <= MAX_KEY as u64
        && branch.lines <= MAX_KEY as u64
        && branch.accounts <= MAX_ACCOUNTS
}

/// What is kept of a row, or a row, that has limits.
pub(crate) trait Limited {
    ghost use Rattle.bank_books.specs.WorldLists.{WorldLists};

    ghost has_limits: { WorldLists → Self → Type 0 };

    /// Whether it is within its limits, and the rows that it names are there.
    fn is_within_limits(&self, world: &World) -> bool
        ensures { IsTrue result ↔ has_limits world.now self.now };
}

impl Limited for TellerRecord {
    ghost has_limits = { λ w. IsTellerInRange w.branches };

    fn is_within_limits(&self, world: &World) -> bool {
        is_key(self.row.teller)
            && is_branch(world, self.row.branch)
            && is_cents(self.balance)
            && is_cash(self.cash)
            && is_holder(self.holder)
    }
}

impl Limited for AccountRecord {
    ghost has_limits = { λ w. IsAccountInRange w.branches };

    fn is_within_limits(&self, world: &World) -> bool {
        is_key(self.row.account)
            && is_branch(world, self.row.home)
            && is_floor(&self.row)
            && is_cents(self.balance)
            && i128::from(self.row.floor.get()) <= self.balance
            && self.turns <= MAX_KEY as u64
    }
}

/// The branch, account and teller that an entry names are looked up beside.
impl Limited for EntryRecord {
    ghost has_limits = { λ w. IsEntryLimited w.entries w.policy.users };

    fn is_within_limits(&self, world: &World) -> bool {
        is_key(self.row.number)
            && is_key(self.row.turn)
            && self.row.moment <= MAX_MOMENT
            && is_day(self.row.day)
            && self.row.partner <= MAX_KEY
            && self.row.undoes <= MAX_KEY
            && is_cents(self.balance_after)
            && is_user(world, self.row.user)
            && is_entry_or_none(world, self.row.branch, self.row.partner)
            && is_entry_or_none(world, self.row.branch, self.row.undoes)
    }
}

/// The branch and the place that a line names are looked up beside.
impl Limited for CashLine {
    ghost has_limits = { λ w. IsLineLimited w.policy.users };

    fn is_within_limits(&self, world: &World) -> bool {
        is_key(self.number)
            && self.moment <= MAX_MOMENT
            && is_day(self.day)
            && is_user(world, self.user)
    }
}

impl Limited for Proof {
    ghost has_limits = { λ w. IsProofInRange w.branches };

    fn is_within_limits(&self, world: &World) -> bool {
        is_branch(world, self.branch) && is_day(self.day) && self.entries <= MAX_KEY
    }
}

/// How releases are numbered is looked up beside.
impl Limited for Release {
    ghost has_limits = { λ w. IsReleaseAlone w.branches w.policy.users };

    fn is_within_limits(&self, world: &World) -> bool {
        is_user(world, self.user)
            && is_within(self.number, 1, MAX_RELEASES)
            && is_user(world, self.giver)
            && is_branch(world, self.branch)
            && is_day(self.day)
            && holds_releasable(self)
    }
}

impl Limited for User {
    ghost has_limits = { λ _ u. u.session ≤ max_key };

    fn is_within_limits(&self, _: &World) -> bool {
        self.session <= MAX_KEY
    }
}

/// Whether the row of a release holds an operation that may be released, at its branch.
fn holds_releasable(release: &Release) -> bool
    ensures { IsTrue result ↔ HoldsReleasable release.now }
{
    match Releasable::from_row(&release.operation) {
        Some(operation) => operation.branch() == release.branch,
        None => false,
    }
}

/// Whether the floor of an account is within its limits, and not above its opening.
fn is_floor(account: &Account) -> bool
    ensures { IsTrue result ↔ ((min_floor ≤ℤ account.now.floor) × (account.now.floor ≤ℤ pos 0) × (account.now.floor ≤ℤ account.now.opening)) }
{
    let floor = account.floor.get();
    i64::from(MIN_FLOOR) <= floor && floor <= 0 && floor <= account.opening.get()
}

fn is_holder(holder: Option<u32>) -> bool
    ensures { IsTrue result ↔ IfSome holder IsUserNumber }
{
    match holder {
        Some(user) => is_within(user, 1, MAX_USER),
        None => true,
    }
}

fn is_key(number: u32) -> bool
    ensures { IsTrue result ↔ IsKey number }
{
    is_within(number, 1, MAX_KEY)
}

fn is_day(number: u32) -> bool
    ensures { IsTrue result ↔ IsDay number }
{
    is_within(number, 1, MAX_DAY)
}

fn is_within(number: u32, low: u32, high: u32) -> bool
    ensures { IsTrue result ↔ IsWithin low high number }
{
    low <= number && number <= high
}

fn is_cents(amount: i128) -> bool
    ensures { IsTrue result ↔ IsCents amount }
{
    -i128::from(MAX_CENTS) <= amount && amount <= i128::from(MAX_CENTS)
}

fn is_cash(amount: i128) -> bool
    ensures { IsTrue result ↔ IsCash amount }
{
    0 <= amount && amount <= i128::from(MAX_CENTS)
}
