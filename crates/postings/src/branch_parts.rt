//! The parts of a branch's record that posts and corrections are judged on.

ghost use Rattle.std.specs.Prelude.{◌≡◌, option_map};
ghost use Rattle.rule_tests.specs.BranchParts.{cash_book_of, ledger_of};

use bank_books::BranchRecord;
use rule_tests::{CashBook, Ledger};

/// The history and the cash book of a branch, where it is there.
pub(crate) fn branch_parts(branch: Option<BranchRecord>) -> (Option<Ledger>, Option<CashBook>)
    ensures { result ≡ (option_map ledger_of branch, option_map cash_book_of branch) }
{
    match branch {
        Some(branch) => (Some(Ledger::of(&branch)), Some(CashBook::of(&branch))),
        None => (None, None),
    }
}
