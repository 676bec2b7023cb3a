//! The entries and the line that undo others.

ghost use Rattle.std.specs.Prelude.{◌≡◌, ◌+◌, ◌<◌};
ghost use Rattle.money.specs.Range.{IsDelta};
ghost use Rattle.bank_terms.specs.Limits.{max_key};
ghost use Rattle.postings.specs.Correct.{undoing, undoing_entry, undoing_leg, undoing_line, undoing_other};

use bank_books::{AccountRecord, CashLine, Entry, EntryForm, LineForm, Signature};
use counter_ops::Correct;
use money::{Cents, Delta};
use rule_tests::{CashBook, Ledger};

/// What a correction adds to the account of the entry that it undoes.
fn undoing_delta(correct: &Correct) -> Delta
    ensures { result ≡ undoing correct.now }
{
    Delta::new(undoing(correct)).unwrap()
}

/// The same in cents.
pub(crate) fn undoing(correct: &Correct) -> i64
    ensures value { result ≡ undoing correct.now }
    ensures in_range { IsDelta result }
{
    -correct.delta.get()
}

/// The entry that undoes a post.
pub(crate) fn undoing_entry(
    account: &AccountRecord,
    ledger: &Ledger,
    correct: &Correct,
    by: Signature,
) -> Entry
    requires turns { account.now.turns < max_key }
    requires entries { ledger.now.entries < max_key }
    ensures { result ≡ undoing_entry account.now ledger.now correct.now by }
{
    Entry {
        branch: correct.branch,
        number: (ledger.entries + 1) as u32,
        account: correct.account,
        turn: (account.turns + 1) as u32,
        teller: correct.teller,
        delta: undoing_delta(correct),
        moment: by.moment,
        day: ledger.day,
        user: by.user,
        form: EntryForm::Correction,
        partner: 0,
        undoes: correct.entry,
    }
}

/// The line of its cash, at the drawer of the teller whom the correction names.
pub(crate) fn undoing_line(book: &CashBook, correct: &Correct, by: Signature) -> CashLine
    requires { book.now.lines < max_key }
    ensures { result ≡ undoing_line book.now correct.now by }
{
    CashLine {
        branch: correct.branch,
        number: (book.lines + 1) as u32,
        place: correct.teller,
        amount: Cents::from(undoing_delta(correct)),
        form: LineForm::CashEntry,
        moment: by.moment,
        day: book.day,
        user: by.user,
    }
}

/// The entry that undoes the leg that is named.
pub(crate) fn undoing_leg(
    account: &AccountRecord,
    ledger: &Ledger,
    correct: &Correct,
    by: Signature,
) -> Entry
    requires turns { account.now.turns < max_key }
    requires entries { ledger.now.entries + 1 < max_key }
    ensures { result ≡ undoing_leg account.now ledger.now correct.now by }
{
    Entry {
        branch: correct.branch,
        number: (ledger.entries + 1) as u32,
        account: correct.account,
        turn: (account.turns + 1) as u32,
        teller: correct.teller,
        delta: undoing_delta(correct),
        moment: by.moment,
        day: ledger.day,
        user: by.user,
        form: EntryForm::Correction,
        partner: (ledger.entries + 2) as u32,
        undoes: correct.entry,
    }
}

/// The entry that undoes the other leg, which bears this number.
pub(crate) fn undoing_other(
    other: &AccountRecord,
    ledger: &Ledger,
    number: u32,
    correct: &Correct,
    by: Signature,
) -> Entry
    requires turns { other.now.turns < max_key }
    requires entries { ledger.now.entries + 1 < max_key }
    ensures { result ≡ undoing_other other.now ledger.now number correct.now by }
{
    Entry {
        branch: correct.branch,
        number: (ledger.entries + 2) as u32,
        account: correct.other,
        turn: (other.turns + 1) as u32,
        teller: correct.teller,
        delta: correct.delta,
        moment: by.moment,
        day: ledger.day,
        user: by.user,
        form: EntryForm::Correction,
        partner: (ledger.entries + 1) as u32,
        undoes: number,
    }
}
