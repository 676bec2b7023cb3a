//! The sums and counts of a World by group, and the records of its rows computed from them.

ghost use Rattle.std.specs.Prelude.{◌≡◌, ◌+ℤ◌, ◌≤ℤ◌, ◌<◌, ◌^◌, ◌==◌, filter, neg_ℤ, pos};
ghost use Rattle.std.specs.List.{All};

use crate::groups::rows_of_group;
use crate::parts::{ByHome, ByPlace, BySlipUser, ByTeller, ByTurn, ByUser};
use crate::shares::Shares;
use bank_books::{
    Account, AccountRecord, Branch, BranchRecord, CashLine, Entry, EntryRecord, ReleaseCount,
    Teller, TellerRecord, World, account_opening, branch_deltas, cash_entry_total,
    difference_total, drawer_total,
};
use bank_policy::User;
use money::Cents;
use std::alloc::{AllocError, Global};

/// The sums and the counts of a World by teller, account, place, home and user. Each is found by
/// searches that halve what is left. Those of a branch are found in its own rows, which stand together.
#[derive(Drop)]
pub struct Sums {
    /// The entries by teller, numbered by branch.
    pub by_teller: Shares,
    /// The entries by account, numbered by turn.
    pub by_turn: Shares,
    /// The cash lines by branch, numbered by place.
    pub by_place: Shares,
    /// The accounts by home.
    pub by_home: Shares,
    /// The releases by user.
    pub by_user: Shares,
    /// The slips by user.
    pub slips_by_user: Shares,
}

impl Sums {
    ghost use Rattle.std.specs.Prelude.{◌≡◌, IfOk};
    ghost use Rattle.book_sums.specs.Sums.{AreSumsOf, account_record_from, branch_record_from, entry_record_from, release_count_from, teller_record_from};
    ghost use Rattle.bank_books.specs.Records.{branch_record_of};

    /// The sums of this World. Only memory keeps them from an answer.
    pub fn of(alloc: Global, world: &World) -> Result<Sums, AllocError>
        ensures { IfOk result (AreSumsOf world.now) }
    {
        see_entry_numbers(world.entries());
        see_line_numbers(world.lines());
        Ok(Sums {
            by_teller: Shares::of(alloc, &ByTeller, world.entries())?,
            by_turn: Shares::of(alloc, &ByTurn, world.entries())?,
            by_place: Shares::of(alloc, &ByPlace, world.lines())?,
            by_home: Shares::of(alloc, &ByHome, world.accounts())?,
            by_user: Shares::of(alloc, &ByUser, world.releases())?,
            slips_by_user: Shares::of(alloc, &BySlipUser, world.slips())?,
        })
    }

    /// The branch with the numbers that the World gives it.
    pub(crate) fn branch_record(&self, world: &World, row: &Branch) -> BranchRecord
        requires { AreSumsOf world.now self.now }
        ensures { result ≡ branch_record_of world.now row.now }
    {
        self.branch_record_from(
            entries_of(world, row.branch),
            lines_of(world, row.branch),
            row,
        )
    }

    /// The same, from its own entries and lines.
    fn branch_record_from(
        &self,
        entries: &[Entry],
        lines: &[CashLine],
        row: &Branch,
    ) -> BranchRecord
        ensures { result ≡ branch_record_from self.now entries.now lines.now row.now }
    {
        let history = branch_deltas(entries, row.branch);
        BranchRecord {
            row: *row,
            balance: opened(row.opening, history),
            vault: opened(row.cash, self.by_place.total_at(row.branch, 0)),
            entries: entries.len() as u64,
            lines: lines.len() as u64,
            accounts: self.by_home.count_of(row.branch),
            history,
            drawers: drawer_total(lines, row.branch),
            cash_entries: cash_entry_total(lines, row.branch),
            differences: difference_total(lines, row.branch),
        }
    }

    /// The teller with the numbers that the sums give it, and the holder of its drawer.
    pub(crate) fn teller_record(&self, row: &Teller, holder: Option<u32>) -> TellerRecord
        ensures { result ≡ teller_record_from self.now row.now holder }
    {
        TellerRecord {
            row: *row,
            balance: opened(row.opening, self.by_teller.total_of(row.teller)),
            cash: self.by_place.total_at(row.branch, row.teller),
            holder,
        }
    }

    /// The account with the numbers that the sums give it.
    pub(crate) fn account_record(&self, row: &Account) -> AccountRecord
        ensures { result ≡ account_record_from self.now row.now }
    {
        AccountRecord {
            row: *row,
            balance: opened(row.opening, self.by_turn.total_of(row.account)),
            turns: self.by_turn.count_of(row.account),
        }
    }

    /// The entry with the balance of its account after it.
    pub(crate) fn entry_record(&self, world: &World, row: &Entry) -> EntryRecord
        ensures { result ≡ entry_record_from world.now self.now row.now }
    {
        EntryRecord {
            row: *row,
            balance_after: account_opening(world, row.account)
                + self.by_turn.total_up_to(row.account, row.turn),
        }
    }

    /// How many releases the user was given, and how many slips they have.
    pub(crate) fn release_count(&self, row: &User) -> ReleaseCount
        ensures { result ≡ release_count_from self.now row.now }
    {
        ReleaseCount {
            user: row.user,
            releases: self.by_user.count_of(row.user),
            slips: self.slips_by_user.count_of(row.user),
        }
    }
}

/// An opening and what was added to it.
fn opened(opening: Cents, added: i128) -> i128
    requires low { neg_ℤ (pos (2 ^ 126)) ≤ℤ added }
    requires high { added ≤ℤ pos (2 ^ 126) }
    ensures { result ≡ opening +ℤ added }
{
    i128::from(opening.get()) + added
}

/// The entries of the branch, by number.
fn entries_of(world: &World, branch: u32) -> &[Entry]
    requires { All (λ e. e.number < 2 ^ 32) world.now.entries }
    ensures { result.now ≡ filter (λ e. e.branch == branch) world.now.entries }
{
    rows_of_group(world.entries(), branch)
}

/// The lines of the branch, by number.
fn lines_of(world: &World, branch: u32) -> &[CashLine]
    requires { All (λ l. l.number < 2 ^ 32) world.now.lines }
    ensures { result.now ≡ filter (λ l. l.branch == branch) world.now.lines }
{
    rows_of_group(world.lines(), branch)
}

/// That the numbers of the entries are of 32 bits. Their type says so, and there is nothing to compute.
fn see_entry_numbers(entries: &[Entry])
    ensures { All (λ e. e.number < 2 ^ 32) entries.now }
{
    for entry in entries {
        see_number(entry.number);
    }
}

/// The same of lines.
fn see_line_numbers(lines: &[CashLine])
    ensures { All (λ l. l.number < 2 ^ 32) lines.now }
{
    for line in lines {
        see_number(line.number);
    }
}

fn see_number(number: u32)
    ensures { number < 2 ^ 32 }
{}
