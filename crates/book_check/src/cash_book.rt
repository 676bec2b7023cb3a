//! The conditions on what is kept of cash, by branch and by teller, and the least branch that fails one.

ghost use Rattle.std.specs.Prelude.{◌≡◌, ◌↔◌, ◌+ℤ◌, ◌≤ℤ◌, pos, negsuc, IsTrue};
ghost use Rattle.bank_books.specs.Conditions.{CashAgrees, IsBranchOfLines};
ghost use Rattle.book_check.specs.Least.{IsFirstFailing};
ghost use Rattle.bank_books.specs.Range.{AreOfRows, IsInRange};
ghost use Rattle.book_check.specs.RowConditions.{BranchesOfCash, TellersOfLines, amount_of};
ghost use Rattle.book_sums.specs.Records.{AreRecordsOf};

use crate::amounts::amount_of;
use crate::branch_numbers::first_of_other_numbers;
use crate::least::{Condition, least_failing, lesser_of};
use bank_books::{BranchRecord, TellerRecord, World};
use book_sums::{Kept, Records};

/// The least branch whose cash book does not give what is kept of its cash, or none.
pub(crate) fn first_of_other_cash(world: &World, kept: &Kept, computed: &Records) -> Option<u32>
    requires in_range { IsInRange world.now kept.now }
    requires computed { AreRecordsOf world.now computed.now }
    ensures { IsFirstFailing (CashAgrees world.now kept.now) result }
{
    let branches = first_branch(world, kept, computed);
    let tellers = first_teller(world, kept, computed);
    let numbers = first_of_other_numbers(kept, world.lines());
    lesser_of(lesser_of(branches, tellers), numbers)
}

fn first_branch(world: &World, kept: &Kept, computed: &Records) -> Option<u32>
    requires rows { AreOfRows world.now kept.now }
    requires computed { AreRecordsOf world.now computed.now }
    ensures { IsFirstFailing (BranchesOfCash world.now kept.now) result }
{
    least_failing(&BranchCash, kept.branches(), &computed.branches)
}

fn first_teller(world: &World, kept: &Kept, computed: &Records) -> Option<u32>
    requires rows { AreOfRows world.now kept.now }
    requires computed { AreRecordsOf world.now computed.now }
    ensures { IsFirstFailing (TellersOfLines world.now kept.now) result }
{
    least_failing(&TellerCash, kept.tellers(), &computed.tellers)
}

/// That what is kept of a branch's cash is what its lines give, and adds up.
#[derive(Clone, Copy)]
struct BranchCash;

impl Condition<BranchRecord> for BranchCash {
    ghost use Rattle.book_check.specs.RowConditions.{IsBranchOfCash};

    ghost holds = { λ _ kept computed. IsBranchOfCash kept computed };

    ghost branch_of = { λ _ kept. kept.row.branch };

    fn holds(&self, row: &BranchRecord, computed: &BranchRecord) -> bool {
        is_of_lines(row, computed) && adds_up(row)
    }

    fn branch_of(&self, row: &BranchRecord) -> u32 {
        row.row.branch
    }
}

fn is_of_lines(row: &BranchRecord, computed: &BranchRecord) -> bool
    ensures { IsTrue result ↔ IsBranchOfLines row.now computed.now }
{
    row.vault == computed.vault
        && row.lines == computed.lines
        && row.drawers == computed.drawers
        && row.cash_entries == computed.cash_entries
        && row.differences == computed.differences
}

/// Whether the vault and the drawers hold what the vault opened with, what entries brought, and what
/// counts of drawers differed by.
fn adds_up(row: &BranchRecord) -> bool
    ensures { IsTrue result ↔ (amount_of row.now.vault +ℤ amount_of row.now.drawers ≡ row.now.row.cash +ℤ (amount_of row.now.cash_entries +ℤ amount_of row.now.differences)) }
{
    held(row) == row.row.cash.get() + brought(row)
}

/// What the vault and the drawers hold, in cents.
fn held(row: &BranchRecord) -> i64
    ensures value { result ≡ amount_of row.now.vault +ℤ amount_of row.now.drawers }
{
    amount_of(row.vault) + amount_of(row.drawers)
}

/// What entries brought and what counts of drawers differed by, in cents.
fn brought(row: &BranchRecord) -> i64
    ensures value { result ≡ amount_of row.now.cash_entries +ℤ amount_of row.now.differences }
    ensures low { negsuc 1999999999997 ≤ℤ result }
    ensures high { result ≤ℤ pos 1999999999998 }
{
    amount_of(row.cash_entries) + amount_of(row.differences)
}

/// That what is kept of a teller's drawer is what its lines give.
#[derive(Clone, Copy)]
struct TellerCash;

impl Condition<TellerRecord> for TellerCash {
    ghost use Rattle.bank_books.specs.Conditions.{IsTellerOfLines};

    ghost holds = { λ _ kept computed. IsTellerOfLines kept computed };

    ghost branch_of = { λ _ kept. kept.row.branch };

    fn holds(&self, row: &TellerRecord, computed: &TellerRecord) -> bool {
        row.cash == computed.cash && row.holder == computed.holder
    }

    fn branch_of(&self, row: &TellerRecord) -> u32 {
        row.row.branch
    }
}
