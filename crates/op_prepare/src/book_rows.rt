//! The rows of the books that each form of operation is judged on, and their loading for a form that takes a slip.

ghost use Rattle.std.specs.Prelude.{◌≡◌, true};
ghost use Rattle.bank_terms.specs.Procedure.{takes_slip};
ghost use Rattle.counter_ops.specs.Op.{procedure_of};
ghost use Rattle.store_rows.specs.Status.{ReadsRow};
ghost use Rattle.op_prepare.specs.BookRows.{book_rows};

use crate::close_day::load_closing_rows;
use crate::correct::load_correct_rows;
use crate::drawer_on::load_drawer_rows;
use crate::move_cash::load_move_rows;
use crate::new_account::load_opening_rows;
use crate::post::load_post_rows;
use crate::release::load_release_rows;
use crate::transfer::load_transfer_rows;
use bank_books::{AccountRecord, BranchRecord};
use bank_meaning::{OpeningRows, ReleaseRows};
use counter_ops::Op;
use drawers::{ClosingRows, DrawerRows, MoveRows};
use money::Fault;
use postings::{CorrectRows, PostRows, TransferRows};
use std::alloc::Global;
use store_rows::{BookReads, PolicyReads};

/// The rows of the books by which an operation is judged, by its form.
#[derive(Clone, Copy, Debug, PartialEq, Eq)]
pub enum BookRows {
    /// Of a post.
    Post(PostRows),
    /// Of a transfer.
    Transfer(TransferRows),
    /// Of a correction.
    Correct(CorrectRows),
    /// Of a drawer that is put on.
    DrawerOn(DrawerRows),
    /// Of a drawer that is put off.
    DrawerOff(DrawerRows),
    /// Of a move of cash.
    MoveCash(MoveRows),
    /// Of an account that is opened.
    NewAccount(OpeningRows),
    /// Of a release that is given.
    Release(ReleaseRows),
    /// Of the question for a balance: the account.
    Balance(Option<AccountRecord>),
    /// Of the question for a statement: the account.
    Statement(Option<AccountRecord>),
    /// Of the question for a list of accounts: none.
    Accounts,
    /// Of the question for the proof of a branch: the branch.
    Proof(Option<BranchRecord>),
    /// Of the closing of a day.
    CloseDay(ClosingRows),
}

/// The rows that an operation that takes a slip is judged on, for `first_of_books`. They are read alone, with no
/// plan, so each fault is one that the store counted.
pub fn load_book_rows<S: PolicyReads + BookReads>(
    alloc: Global,
    store: &mut S,
    op: &Op,
) -> Result<BookRows, Fault>
    requires { takes_slip (procedure_of op.now) ≡ true }
    ensures { ReadsRow (S.status store.old) (S.status store.new) result (λ w rows. rows ≡ book_rows w op.now) }
{
    match op {
        Op::Post(form) => Ok(BookRows::Post(load_post_rows(alloc, store, form)?)),
        Op::Transfer(form) => Ok(BookRows::Transfer(load_transfer_rows(alloc, store, form)?)),
        Op::Correct(form) => Ok(BookRows::Correct(load_correct_rows(alloc, store, form)?)),
        Op::DrawerOn(form) => {
            let rows = load_drawer_rows(alloc, store, form.teller, form.branch)?;
            Ok(BookRows::DrawerOn(rows))
        }
        Op::DrawerOff(form) => {
            let rows = load_drawer_rows(alloc, store, form.teller, form.branch)?;
            Ok(BookRows::DrawerOff(rows))
        }
        Op::MoveCash(form) => Ok(BookRows::MoveCash(load_move_rows(alloc, store, form)?)),
        Op::NewAccount(form) => Ok(BookRows::NewAccount(load_opening_rows(alloc, store, form)?)),
        Op::Release(form) => Ok(BookRows::Release(load_release_rows(alloc, store, form)?)),
        Op::CloseDay(form) => Ok(BookRows::CloseDay(load_closing_rows(alloc, store, form)?)),
        Op::Balance(_) | Op::Statement(_) | Op::Accounts(_) | Op::Proof(_) => unreachable!(),
    }
}
