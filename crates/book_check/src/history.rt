//! The conditions on what is kept of branches, tellers, accounts and entries, by the history of each branch.

ghost use Rattle.std.specs.Prelude.{◌≡◌, ℕ, map};
ghost use Rattle.std.specs.List.Sorted.{IsPermutation};
ghost use Rattle.bank_books.specs.Conditions.{HistoryAgrees};
ghost use Rattle.bank_books.specs.Range.{AreOfRows, IsInRange};
ghost use Rattle.book_check.specs.Least.{IsFirstFailing};
ghost use Rattle.book_check.specs.RowConditions.{AccountsOfHistory, BranchesOfHistory, EntriesOfHistory, TellersOfHistory, TurnsOfHistory};
ghost use Rattle.book_check.specs.Turns.{AreBeside, turn_balance};
ghost use Rattle.book_sums.specs.Records.{AreRecordsOf};
ghost use Rattle.book_sums.specs.Sums.{AreSumsOf};

use crate::branch_numbers::first_of_other_numbers;
use crate::least::{Condition, least_failing, lesser_of};
use crate::turns::is_in_turns;
use bank_books::{AccountRecord, BranchRecord, TellerRecord, World};
use book_sums::{Kept, Records, Shares, Sums};

/// The least branch whose history does not give what is kept of it, of its tellers, or of the
/// accounts whose home it is, or none.
pub(crate) fn first_of_other_history(
    world: &World,
    kept: &Kept,
    computed: &Records,
    sums: &Sums,
    balances: &Shares,
) -> Option<u32>
    requires in_range { IsInRange world.now kept.now }
    requires computed { AreRecordsOf world.now computed.now }
    requires sums { AreSumsOf world.now sums.now }
    requires balances { IsPermutation (map turn_balance kept.now.entries) balances.now }
    ensures { IsFirstFailing (HistoryAgrees world.now kept.now) result }
{
    let branches = first_branch(world, kept, computed);
    let tellers = first_teller(world, kept, computed);
    let accounts = first_account(world, kept, computed);
    let turns = first_turn(world, kept, sums, balances);
    let numbers = first_of_other_numbers(kept, world.entries());
    lesser_of(
        lesser_of(lesser_of(branches, tellers), lesser_of(accounts, turns)),
        numbers,
    )
}

fn first_branch(world: &World, kept: &Kept, computed: &Records) -> Option<u32>
    requires rows { AreOfRows world.now kept.now }
    requires computed { AreRecordsOf world.now computed.now }
    ensures { IsFirstFailing (BranchesOfHistory world.now kept.now) result }
{
    least_failing(&BranchHistory, kept.branches(), &computed.branches)
}

fn first_teller(world: &World, kept: &Kept, computed: &Records) -> Option<u32>
    requires rows { AreOfRows world.now kept.now }
    requires computed { AreRecordsOf world.now computed.now }
    ensures { IsFirstFailing (TellersOfHistory world.now kept.now) result }
{
    least_failing(&TellerHistory, kept.tellers(), &computed.tellers)
}

fn first_account(world: &World, kept: &Kept, computed: &Records) -> Option<u32>
    requires rows { AreOfRows world.now kept.now }
    requires computed { AreRecordsOf world.now computed.now }
    ensures { IsFirstFailing (AccountsOfHistory world.now kept.now) result }
{
    least_failing(&AccountHistory, kept.accounts(), &computed.accounts)
}

/// The least home of an account whose turns, or the balances kept beside its entries, are not those of
/// its history, or none.
fn first_turn(world: &World, kept: &Kept, sums: &Sums, balances: &Shares) -> Option<u32>
    requires in_range { IsInRange world.now kept.now }
    requires sums { AreSumsOf world.now sums.now }
    requires balances { IsPermutation (map turn_balance kept.now.entries) balances.now }
    ensures { IsFirstFailing (λ branch. EntriesOfHistory world.now kept.now branch × TurnsOfHistory world.now kept.now branch) result }
{
    least_failing(
        &AccountTurns { sums, balances },
        kept.accounts(),
        kept.accounts(),
    )
}

/// That what is kept of a branch is what its history gives.
#[derive(Clone, Copy)]
struct BranchHistory;

impl Condition<BranchRecord> for BranchHistory {
    ghost use Rattle.bank_books.specs.Conditions.{IsBranchOfHistory};

    ghost holds = { λ _ kept computed. IsBranchOfHistory kept computed };

    ghost branch_of = { λ _ kept. kept.row.branch };

    fn holds(&self, row: &BranchRecord, computed: &BranchRecord) -> bool {
        row.balance == computed.balance
            && row.entries == computed.entries
            && row.history == computed.history
            && row.accounts == computed.accounts
    }

    fn branch_of(&self, row: &BranchRecord) -> u32 {
        row.row.branch
    }
}

/// That the balance kept of a teller is what the history gives.
#[derive(Clone, Copy)]
struct TellerHistory;

impl Condition<TellerRecord> for TellerHistory {
    ghost use Rattle.std.specs.Prelude.{◌≡◌};

    ghost holds = { λ _ kept computed. kept.balance ≡ computed.balance };

    ghost branch_of = { λ _ kept. kept.row.branch };

    fn holds(&self, row: &TellerRecord, computed: &TellerRecord) -> bool {
        row.balance == computed.balance
    }

    fn branch_of(&self, row: &TellerRecord) -> u32 {
        row.row.branch
    }
}

/// That what is kept of an account is what the history gives.
#[derive(Clone, Copy)]
struct AccountHistory;

impl Condition<AccountRecord> for AccountHistory {
    ghost use Rattle.bank_books.specs.Conditions.{IsAccountOfHistory};

    ghost holds = { λ _ kept computed. IsAccountOfHistory kept computed };

    ghost branch_of = { λ _ kept. kept.row.home };

    fn holds(&self, row: &AccountRecord, computed: &AccountRecord) -> bool {
        row.balance == computed.balance && row.turns == computed.turns
    }

    fn branch_of(&self, row: &AccountRecord) -> u32 {
        row.row.home
    }
}

/// That the turns of an account's entries are 1, 2, 3 and so on, each once, and the balances kept beside
/// them are what the history gives. Where this fails, the branch is the account's home.
#[derive(Drop)]
struct AccountTurns<'s> {
    sums: &'s Sums,
    balances: &'s Shares,
    ghost beside: { (account : ℕ) → AreBeside sums.now.by_turn balances.now account },
}

impl<'s> Condition<AccountRecord> for AccountTurns<'s> {
    ghost use Rattle.book_check.specs.Turns.{IsAccountInTurns};

    ghost holds = { λ q kept _. IsAccountInTurns q.sums.now.by_turn q.balances.now kept.row };

    ghost branch_of = { λ _ kept. kept.row.home };

    fn holds(&self, row: &AccountRecord, _: &AccountRecord) -> bool {
        is_in_turns(&self.sums.by_turn, self.balances, &row.row)
    }

    fn branch_of(&self, row: &AccountRecord) -> u32 {
        row.row.home
    }
}
