//! What a line of the cash book changes in the numbers of a teller and of its branch.

ghost use Rattle.std.specs.Prelude.{◌≡◌, ◌↔◌, ◌+◌, ◌+ℤ◌, ◌<◌, ◌^◌, pos, if◌then◌else◌, IfSome, IsSome, IsTrue};
ghost use Rattle.money.specs.Range.{IsCents};
ghost use Rattle.bank_books.specs.Cash.{holder_after};
ghost use Rattle.book_laws.specs.Moves.{branch_lined};
ghost use Rattle.book_kept.specs.After.{AreAfterLine, AreLined, IsAfterVaultLine};
ghost use Rattle.book_kept.specs.Next.{IsCashDetermined, IsNextAtDrawer, IsNextAtVault};
ghost use Rattle.book_kept.specs.Records.{kept_teller_lined};

use crate::records::KeptTeller;
use bank_books::{BranchRecord, CashLine, LineForm};

/// The rows that a line at a drawer moves, with the numbers that they have after it.
#[derive(Clone, Copy, Debug, PartialEq, Eq)]
pub struct LineRows {
    /// The teller whose drawer it is.
    pub teller: KeptTeller,
    /// The branch in whose cash book it stands.
    pub branch: BranchRecord,
}

/// What a line at a drawer makes of the teller and of the branch, or none where it doesn't bear the next
/// number of that branch, the teller is of another branch, user 0 would hold the drawer, or a sum is out
/// of the range of an `i128`.
pub fn with_drawer_line(
    teller: &KeptTeller,
    branch: &BranchRecord,
    line: &CashLine,
) -> Option<LineRows>
    ensures kept { IfSome result (λ rows. AreAfterLine line.now teller.now branch.now rows) }
    ensures moved { IfSome result (λ rows. AreLined line.now teller.now branch.now rows) }
    ensures stated { IsNextAtDrawer line.now teller.now branch.now → IsSome result }
{
    let branch = branch_moved(branch, line)?;
    if teller.row.branch != line.branch || is_held_by_nobody(line) {
        return None;
    }
    let teller = teller_moved(teller, line)?;
    Some(LineRows { teller, branch })
}

/// What a line at the vault makes of the branch, or none where it is at a drawer or doesn't bear the next
/// number of that branch, or a sum is out of the range of an `i128`.
pub fn with_vault_line(branch: &BranchRecord, line: &CashLine) -> Option<BranchRecord>
    ensures kept { IfSome result (λ after. IsAfterVaultLine line.now branch.now after) }
    ensures moved { IfSome result (λ after. after ≡ branch_lined line.now branch.now) }
    ensures stated { IsNextAtVault line.now branch.now → IsSome result }
{
    if line.place == 0 {
        branch_moved(branch, line)
    } else {
        None
    }
}

/// Whether user 0 puts a drawer on by the line.
fn is_held_by_nobody(line: &CashLine) -> bool
    ensures { IsTrue result ↔ (holder_after line.now line.now.form ≡ Some 0) }
{
    match line.form {
        LineForm::On => line.user == 0,
        LineForm::CashEntry | LineForm::Off | LineForm::Move | LineForm::Difference => false,
    }
}

fn teller_moved(teller: &KeptTeller, line: &CashLine) -> Option<KeptTeller>
    ensures moved { IfSome result (λ t. t ≡ kept_teller_lined line.now teller.now) }
    ensures stated { IsCents teller.now.cash → IsSome result }
{
    let mut moved = *teller;
    moved.cash = teller.cash.checked_add(line.amount.get() as i128)?;
    moved.holder = match line.form {
        LineForm::On => line.user,
        LineForm::Off => 0,
        LineForm::CashEntry | LineForm::Move | LineForm::Difference => teller.holder,
    };
    Some(moved)
}

fn branch_moved(branch: &BranchRecord, line: &CashLine) -> Option<BranchRecord>
    ensures moved { IfSome result (λ b. b ≡ branch_lined line.now branch.now) }
    ensures next { IfSome result (λ b. (line.now.number ≡ b.lines) × (line.now.number < 2 ^ 32)) }
    ensures stated { IsCashDetermined branch.now → line.now.number ≡ branch.now.lines + 1 → IsSome result }
{
    let number = line.number as u64;
    let at_vault = line.place == 0;
    let mut moved = *branch;
    moved.vault = with_share(&branch.vault, line, at_vault)?;
    moved.drawers = with_share(&branch.drawers, line, !at_vault)?;
    moved.cash_entries = with_share(&branch.cash_entries, line, line.form.is_cash_entry())?;
    moved.differences = with_share(&branch.differences, line, line.form.is_difference())?;
    moved.lines = branch.lines.checked_add(1)?;
    if moved.lines == number {
        Some(moved)
    } else {
        None
    }
}

/// A sum, with the amount of the line added where `counts` is true.
fn with_share(sum: &i128, line: &CashLine, counts: bool) -> Option<i128>
    ensures value { IfSome result (λ after. after ≡ sum.now +ℤ (if counts then line.now.amount else pos 0)) }
    ensures stated { IsCents sum.now → IsSome result }
{
    let amount = line.amount.get() as i128;
    sum.checked_add(if counts { amount } else { 0 })
}
