//! Corrections: the rules against one, and the entries, or the entry and the cash line, that it writes.

ghost use Rattle.std.specs.Prelude.{◌≡◌, [], ◌∷◌, ◌+◌, ◌<◌, ◌+ℤ◌, true, false, option_map, IfOk, IfSome, IsNone, IsSome, IsOkUnless, Ok, Err};
ghost use Rattle.money.specs.Range.{IsCents};
ghost use Rattle.bank_terms.specs.Limits.{max_key};
ghost use Rattle.rule_tests.specs.BranchParts.{cash_book_of, ledger_of};
ghost use Rattle.rule_tests.specs.Planned.{IsPlanned};
ghost use Rattle.postings.specs.Correct.{are_above_floors, correct_changes, corrected_of, first_against_correct, has_cash, has_entry, is_by_maker, is_correctable, is_full, is_in_range, is_of_post, is_unknown, other_is_as_named, post_in_range, post_undone, transfer_undone, undoing, undoing_entry, undoing_leg, undoing_line, undoing_other};

use crate::branch_parts::branch_parts;
use crate::post::{Posted, posted_by};
use crate::transfer::{Transferred, transferred_by};
use crate::undo::{undoing, undoing_entry, undoing_leg, undoing_line, undoing_other};
use bank_books::{
    AccountRecord, BranchRecord, Entry, EntryForm, RowWrite, Signature, TellerRecord,
};
use bank_terms::Rule;
use counter_ops::Correct;
use money::Fault;
use rule_tests::{
    CashBook, Ledger, Planned, account_in_range, account_is_full, account_keeps_floor,
    cash_book_is_full, cash_entries_in_range, drawer_covers, drawer_in_range, drawer_is_held_by,
    drawers_in_range, first_denial, ledger_in_range, ledger_is_full, teller_in_range, teller_is_of,
};
use std::alloc::Global;

/// The rows that a correction is judged on, as far as they are there.
#[derive(Clone, Copy, Debug, PartialEq, Eq)]
pub struct CorrectRows {
    /// The account that it names.
    pub account: Option<AccountRecord>,
    /// The other account that it names, of a transfer.
    pub other: Option<AccountRecord>,
    /// The teller that it names, with its drawer.
    pub teller: Option<TellerRecord>,
    /// The history of the branch that it names.
    pub ledger: Option<Ledger>,
    /// The cash book of that branch.
    pub cash_book: Option<CashBook>,
    /// The entry that it names.
    pub entry: Option<Entry>,
    /// The other leg, where that entry is one of a transfer.
    pub partner: Option<Entry>,
    /// Whether that entry is undone already.
    pub is_undone: bool,
}

impl CorrectRows {
    /// Of the rows as a store answers them.
    pub fn of(
        account: Option<AccountRecord>,
        other: Option<AccountRecord>,
        teller: Option<TellerRecord>,
        branch: Option<BranchRecord>,
        entry: Option<Entry>,
        partner: Option<Entry>,
        is_undone: bool,
    ) -> CorrectRows
        ensures { result ≡ record { account = account; other = other; teller = teller; ledger = option_map ledger_of branch; cash_book = option_map cash_book_of branch; entry = entry; partner = partner; is_undone = is_undone } }
    {
        let (ledger, cash_book) = branch_parts(branch);
        CorrectRows {
            account,
            other,
            teller,
            ledger,
            cash_book,
            entry,
            partner,
            is_undone,
        }
    }
}

/// What a correction leaves.
#[derive(Clone, Copy, Debug, PartialEq, Eq)]
pub enum Corrected {
    /// That of a post, as a post.
    OfPost(Posted),
    /// That of a transfer, as a transfer.
    OfTransfer(Transferred),
}

/// The plan of a correction, or the first rule of the books that denies it. Only memory keeps it
/// from an answer.
pub fn plan_correct(
    alloc: Global,
    rows: &CorrectRows,
    correct: &Correct,
    by: Signature,
) -> Result<Result<Planned<Corrected>, Rule>, Fault>
    ensures planned { IfOk result (IsPlanned (first_against_correct rows.now correct.now by) (correct_changes rows.now correct.now by) (corrected_of rows.now correct.now)) }
    ensures denied { IfSome (first_against_correct rows.now correct.now by) (λ rule. result ≡ Ok (Err rule)) }
    ensures memory { IsOkUnless result Fault.Memory }
{
    if let Some(rule) = rule_against_correct(rows, correct, by) {
        return Ok(Err(rule));
    }
    if is_of_post(correct) {
        let (Some(account), Some(ledger), Some(book)) = (rows.account, rows.ledger, rows.cash_book)
        else {
            unreachable!();
        };
        return Ok(Ok(undo_post(alloc, &account, &ledger, &book, correct, by)?));
    }
    let (Some(account), Some(other), Some(ledger), Some(entry)) = (
        rows.account,
        rows.other,
        rows.ledger,
        rows.entry,
    ) else {
        unreachable!();
    };
    let legs = undo_legs(alloc, &account, &other, &ledger, entry.partner, correct, by)?;
    Ok(Ok(legs))
}

/// The plan of the correction of a post that no rule denies.
fn undo_post(
    alloc: Global,
    account: &AccountRecord,
    ledger: &Ledger,
    book: &CashBook,
    correct: &Correct,
    by: Signature,
) -> Result<Planned<Corrected>, Fault>
    requires balance { IsCents (account.now.balance +ℤ undoing correct.now) }
    requires turns { account.now.turns < max_key }
    requires entries { ledger.now.entries < max_key }
    requires lines { book.now.lines < max_key }
    ensures plan { IfOk result (λ planned. planned.plan.items ≡ RowWrite.Entry (undoing_entry account.now ledger.now correct.now by) ∷ RowWrite.Line (undoing_line book.now correct.now by) ∷ []) }
    ensures left { IfOk result (λ planned. planned.left ≡ post_undone correct.now account.now ledger.now) }
    ensures memory { IsOkUnless result Fault.Memory }
{
    let entry = undoing_entry(account, ledger, correct, by);
    let left = Corrected::OfPost(posted_by(account, &entry));
    let mut plan = Vec::new(alloc);
    plan.push(RowWrite::Entry(entry))?;
    plan.push(RowWrite::Line(undoing_line(book, correct, by)))?;
    Ok(Planned { plan, left })
}

/// The plan of the correction of a transfer that no rule denies, whose other leg bears this number.
fn undo_legs(
    alloc: Global,
    account: &AccountRecord,
    other: &AccountRecord,
    ledger: &Ledger,
    number: u32,
    correct: &Correct,
    by: Signature,
) -> Result<Planned<Corrected>, Fault>
    requires balance { IsCents (account.now.balance +ℤ undoing correct.now) }
    requires other_balance { IsCents (other.now.balance +ℤ correct.now.delta) }
    requires turns { account.now.turns < max_key }
    requires other_turns { other.now.turns < max_key }
    requires entries { ledger.now.entries + 1 < max_key }
    ensures plan { IfOk result (λ planned. planned.plan.items ≡ RowWrite.Entry (undoing_leg account.now ledger.now correct.now by) ∷ RowWrite.Entry (undoing_other other.now ledger.now number correct.now by) ∷ []) }
    ensures left { IfOk result (λ planned. planned.left ≡ transfer_undone correct.now account.now other.now ledger.now) }
    ensures memory { IsOkUnless result Fault.Memory }
{
    let first = undoing_leg(account, ledger, correct, by);
    let second = undoing_other(other, ledger, number, correct, by);
    let left = Corrected::OfTransfer(transferred_by(account, other, &first, &second));
    let mut plan = Vec::new(alloc);
    plan.push(RowWrite::Entry(first))?;
    plan.push(RowWrite::Entry(second))?;
    Ok(Planned { plan, left })
}

/// The first rule of the books that denies the correction, or none. It takes no memory.
pub fn rule_against_correct(rows: &CorrectRows, correct: &Correct, by: Signature) -> Option<Rule>
    ensures first { result ≡ first_against_correct rows.now correct.now by }
    ensures known { IsNone result → is_unknown rows.now correct.now ≡ false }
    ensures entry { IsNone result → IsSome rows.now.entry }
    ensures balance { IsNone result → IfSome rows.now.account (λ account. IsCents (account.balance +ℤ undoing correct.now)) }
    ensures other_balance { IsNone result → IfSome rows.now.other (λ other. IsCents (other.balance +ℤ correct.now.delta)) }
    ensures turns { IsNone result → IfSome rows.now.account (λ account. account.turns < max_key) }
    ensures other_turns { IsNone result → IfSome rows.now.other (λ other. other.turns < max_key) }
    ensures one { IsNone result → is_of_post correct.now ≡ true → IfSome rows.now.ledger (λ ledger. ledger.entries < max_key) }
    ensures lines { IsNone result → is_of_post correct.now ≡ true → IfSome rows.now.cash_book (λ book. book.lines < max_key) }
    ensures two { IsNone result → is_of_post correct.now ≡ false → IfSome rows.now.ledger (λ ledger. ledger.entries + 1 < max_key) }
{
    first_denial(&[
        (Rule::Unknown, is_unknown(rows, correct)),
        (Rule::Branch, !teller_is_of(rows.teller, correct.branch)),
        (Rule::Drawer, !drawer_is_held_by(rows.teller, by.user)),
        (Rule::SecondPerson, is_by_maker(rows, by.user)),
        (Rule::Entry, !has_entry(rows, correct)),
        (Rule::Floor, !are_above_floors(rows, correct)),
        (Rule::Cash, !has_cash(rows, correct)),
        (Rule::Range, !is_in_range(rows, correct)),
        (Rule::Full, is_full(rows, correct)),
    ])
}

fn is_of_post(correct: &Correct) -> bool
    ensures { result ≡ is_of_post correct.now }
{
    correct.other == 0
}

fn is_unknown(rows: &CorrectRows, correct: &Correct) -> bool
    ensures { result ≡ is_unknown rows.now correct.now }
{
    rows.account.is_none()
        || (!is_of_post(correct) && rows.other.is_none())
        || rows.teller.is_none()
        || rows.ledger.is_none()
        || rows.cash_book.is_none()
}

fn is_by_maker(rows: &CorrectRows, user: u32) -> bool
    ensures { result ≡ is_by_maker rows.now user }
{
    match rows.entry {
        Some(entry) => entry.user == user,
        None => false,
    }
}

/// A correction is never corrected, and a leg only together with the other leg.
fn other_is_as_named(form: EntryForm, partner: Option<Entry>, correct: &Correct) -> bool
    ensures { result ≡ other_is_as_named form partner correct.now }
{
    match form {
        EntryForm::Post => is_of_post(correct),
        EntryForm::TransferLeg => {
            !is_of_post(correct)
                && match partner {
                    Some(partner) => partner.account == correct.other,
                    None => false,
                }
        }
        EntryForm::Correction => false,
    }
}

fn is_correctable(entry: &Entry, rows: &CorrectRows, correct: &Correct) -> bool
    ensures { result ≡ is_correctable entry.now rows.now correct.now }
{
    let is_of_the_day = match rows.ledger {
        Some(ledger) => entry.day == ledger.day,
        None => true,
    };
    entry.account == correct.account
        && entry.delta == correct.delta
        && other_is_as_named(entry.form, rows.partner, correct)
        && is_of_the_day
}

fn has_entry(rows: &CorrectRows, correct: &Correct) -> bool
    ensures { result ≡ has_entry rows.now correct.now }
{
    !rows.is_undone
        && match rows.entry {
            Some(entry) => is_correctable(&entry, rows, correct),
            None => false,
        }
}

fn are_above_floors(rows: &CorrectRows, correct: &Correct) -> bool
    ensures { result ≡ are_above_floors rows.now correct.now }
{
    account_keeps_floor(rows.account, undoing(correct))
        && account_keeps_floor(rows.other, correct.delta.get())
}

fn has_cash(rows: &CorrectRows, correct: &Correct) -> bool
    ensures { result ≡ has_cash rows.now correct.now }
{
    !is_of_post(correct) || drawer_covers(rows.teller, undoing(correct))
}

fn post_in_range(rows: &CorrectRows, added: i64) -> bool
    ensures { result ≡ post_in_range rows.now added }
{
    teller_in_range(rows.teller, added)
        && ledger_in_range(rows.ledger, added)
        && drawer_in_range(rows.teller, added)
        && drawers_in_range(rows.cash_book, added)
        && cash_entries_in_range(rows.cash_book, added)
}

fn is_in_range(rows: &CorrectRows, correct: &Correct) -> bool
    ensures all { result ≡ is_in_range rows.now correct.now }
    ensures other_balance { result ≡ true → IfSome rows.now.other (λ other. IsCents (other.balance +ℤ correct.now.delta)) }
{
    let added = undoing(correct);
    account_in_range(rows.account, added)
        && account_in_range(rows.other, correct.delta.get())
        && (!is_of_post(correct) || post_in_range(rows, added))
}

fn is_full(rows: &CorrectRows, correct: &Correct) -> bool
    ensures { result ≡ is_full rows.now correct.now }
{
    let has_no_number = if is_of_post(correct) {
        ledger_is_full(rows.ledger, 1) || cash_book_is_full(rows.cash_book, 1)
    } else {
        ledger_is_full(rows.ledger, 2)
    };
    account_is_full(rows.account) || account_is_full(rows.other) || has_no_number
}
