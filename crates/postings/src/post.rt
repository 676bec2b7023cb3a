//! Posts: the rules against one, and the entry and the cash line that it writes.

ghost use Rattle.std.specs.Prelude.{◌≡◌, ◌<◌, ◌+ℤ◌, false, option_map, IfOk, IfSome, IsNone, IsOkUnless, Ok, Err};
ghost use Rattle.money.specs.Range.{IsCents};
ghost use Rattle.bank_terms.specs.Limits.{max_key};
ghost use Rattle.rule_tests.specs.BranchParts.{cash_book_of, ledger_of};
ghost use Rattle.rule_tests.specs.Planned.{IsPlanned};
ghost use Rattle.rule_tests.specs.Rules.{account_keeps_floor, drawer_covers};
ghost use Rattle.postings.specs.Post.{is_full, is_in_range, is_unknown, first_against_post, post_changes, post_entry, post_line, posted_of};

use crate::branch_parts::branch_parts;
use bank_books::{
    AccountRecord, BranchRecord, CashLine, Entry, EntryForm, LineForm, RowWrite, Signature,
    TellerRecord,
};
use bank_terms::Rule;
use counter_ops::Post;
use money::{Cents, Fault};
use rule_tests::{
    CashBook, Ledger, Planned, account_in_range, account_is_full, account_keeps_floor,
    cash_book_is_full, cash_entries_in_range, cents_after, drawer_covers, drawer_in_range,
    drawer_is_held_by, drawers_in_range, first_denial, ledger_in_range, ledger_is_full,
    teller_in_range, teller_is_of,
};
use std::alloc::Global;

/// The rows that a post is judged on, as far as they are there.
#[derive(Clone, Copy, Debug, PartialEq, Eq)]
pub struct PostRows {
    /// The account that it names.
    pub account: Option<AccountRecord>,
    /// The teller that it names, with its drawer.
    pub teller: Option<TellerRecord>,
    /// The history of the branch that it names.
    pub ledger: Option<Ledger>,
    /// The cash book of that branch.
    pub cash_book: Option<CashBook>,
}

impl PostRows {
    /// Of the rows as a store answers them.
    pub fn of(
        account: Option<AccountRecord>,
        teller: Option<TellerRecord>,
        branch: Option<BranchRecord>,
    ) -> PostRows
        ensures { result ≡ record { account = account; teller = teller; ledger = option_map ledger_of branch; cash_book = option_map cash_book_of branch } }
    {
        let (ledger, cash_book) = branch_parts(branch);
        PostRows {
            account,
            teller,
            ledger,
            cash_book,
        }
    }
}

/// What a post leaves.
#[derive(Clone, Copy, Debug, PartialEq, Eq)]
pub struct Posted {
    /// The balance of the account after it.
    pub balance: Cents,
    /// The branch in whose history the entry stands.
    pub branch: u32,
    /// The number of the entry there.
    pub entry: u32,
}

/// The plan of a post, or the first rule of the books that denies it. Only memory keeps it from an
/// answer.
pub fn plan_post(
    alloc: Global,
    rows: &PostRows,
    post: &Post,
    by: Signature,
) -> Result<Result<Planned<Posted>, Rule>, Fault>
    ensures planned { IfOk result (IsPlanned (first_against_post rows.now post.now by) (post_changes rows.now post.now by) (posted_of rows.now post.now)) }
    ensures denied { IfSome (first_against_post rows.now post.now by) (λ rule. result ≡ Ok (Err rule)) }
    ensures memory { IsOkUnless result Fault.Memory }
{
    if let Some(rule) = rule_against_post(rows, post, by) {
        return Ok(Err(rule));
    }
    let (Some(account), Some(ledger), Some(book)) = (rows.account, rows.ledger, rows.cash_book)
    else {
        unreachable!();
    };
    let entry = post_entry(&account, &ledger, post, by);
    let left = posted_by(&account, &entry);
    let mut plan = Vec::new(alloc);
    plan.push(RowWrite::Entry(entry))?;
    plan.push(RowWrite::Line(post_line(&book, post, by)))?;
    Ok(Ok(Planned { plan, left }))
}

/// What is left by the entry of a post that no rule denies.
pub(crate) fn posted_by(account: &AccountRecord, entry: &Entry) -> Posted
    requires { IsCents (account.now.balance +ℤ entry.now.delta) }
    ensures { result ≡ record { balance = account.now.balance +ℤ entry.now.delta; branch = entry.now.branch; entry = entry.now.number } }
{
    let Some(balance) = cents_after(account.balance, entry.delta.get()) else {
        unreachable!();
    };
    Posted {
        balance,
        branch: entry.branch,
        entry: entry.number,
    }
}

/// The entry of a post that no rule denies.
fn post_entry(account: &AccountRecord, ledger: &Ledger, post: &Post, by: Signature) -> Entry
    requires turns { account.now.turns < max_key }
    requires entries { ledger.now.entries < max_key }
    ensures { result ≡ post_entry account.now ledger.now post.now by }
{
    Entry {
        branch: post.branch,
        number: (ledger.entries + 1) as u32,
        account: post.account,
        turn: (account.turns + 1) as u32,
        teller: post.teller,
        delta: post.delta,
        moment: by.moment,
        day: ledger.day,
        user: by.user,
        form: EntryForm::Post,
        partner: 0,
        undoes: 0,
    }
}

/// The line of its cash.
fn post_line(book: &CashBook, post: &Post, by: Signature) -> CashLine
    requires { book.now.lines < max_key }
    ensures { result ≡ post_line book.now post.now by }
{
    CashLine {
        branch: post.branch,
        number: (book.lines + 1) as u32,
        place: post.teller,
        amount: Cents::from(post.delta),
        form: LineForm::CashEntry,
        moment: by.moment,
        day: book.day,
        user: by.user,
    }
}

/// The first rule of the books that denies the post, or none. It takes no memory.
pub fn rule_against_post(rows: &PostRows, post: &Post, by: Signature) -> Option<Rule>
    ensures first { result ≡ first_against_post rows.now post.now by }
    ensures known { IsNone result → is_unknown rows.now ≡ false }
    ensures balance { IsNone result → IfSome rows.now.account (λ account. IsCents (account.balance +ℤ post.now.delta)) }
    ensures turns { IsNone result → IfSome rows.now.account (λ account. account.turns < max_key) }
    ensures entries { IsNone result → IfSome rows.now.ledger (λ ledger. ledger.entries < max_key) }
    ensures lines { IsNone result → IfSome rows.now.cash_book (λ book. book.lines < max_key) }
{
    first_denial(&[
        (Rule::Unknown, is_unknown(rows)),
        (Rule::Branch, !teller_is_of(rows.teller, post.branch)),
        (Rule::Drawer, !drawer_is_held_by(rows.teller, by.user)),
        (Rule::Floor, !keeps_floor(rows, post)),
        (Rule::Cash, !has_cash(rows, post)),
        (Rule::Range, !is_in_range(rows, post)),
        (Rule::Full, is_full(rows)),
    ])
}

fn is_unknown(rows: &PostRows) -> bool
    ensures { result ≡ is_unknown rows.now }
{
    rows.account.is_none()
        || rows.teller.is_none()
        || rows.ledger.is_none()
        || rows.cash_book.is_none()
}

fn keeps_floor(rows: &PostRows, post: &Post) -> bool
    ensures { result ≡ account_keeps_floor rows.now.account post.now.delta }
{
    account_keeps_floor(rows.account, post.delta.get())
}

fn has_cash(rows: &PostRows, post: &Post) -> bool
    ensures { result ≡ drawer_covers rows.now.teller post.now.delta }
{
    drawer_covers(rows.teller, post.delta.get())
}

fn is_in_range(rows: &PostRows, post: &Post) -> bool
    ensures { result ≡ is_in_range rows.now post.now }
{
    let added = post.delta.get();
    account_in_range(rows.account, added)
        && teller_in_range(rows.teller, added)
        && ledger_in_range(rows.ledger, added)
        && drawer_in_range(rows.teller, added)
        && drawers_in_range(rows.cash_book, added)
        && cash_entries_in_range(rows.cash_book, added)
}

fn is_full(rows: &PostRows) -> bool
    ensures { result ≡ is_full rows.now }
{
    ledger_is_full(rows.ledger, 1)
        || account_is_full(rows.account)
        || cash_book_is_full(rows.cash_book, 1)
}
