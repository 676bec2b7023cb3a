//! Transfers: the rules against one, and the two entries that it writes.

ghost use Rattle.std.specs.Prelude.{◌≡◌, ◌+◌, ◌<◌, ◌≤◌, ◌+ℤ◌, false, option_map, IfOk, IfSome, IsNone, IsOkUnless, Ok, Err};
ghost use Rattle.money.specs.Range.{IsCents};
ghost use Rattle.bank_terms.specs.Limits.{max_key, max_transfer};
ghost use Rattle.rule_tests.specs.BranchParts.{ledger_of};
ghost use Rattle.rule_tests.specs.Planned.{IsPlanned};
ghost use Rattle.postings.specs.Transfer.{are_above_floors, are_in_range, first_against_transfer, first_leg, given, is_full, is_unknown, second_leg, taken, transfer_changes, transferred_of};

use bank_books::{
    AccountRecord, BranchRecord, Entry, EntryForm, RowWrite, Signature, TellerRecord,
};
use bank_terms::Rule;
use counter_ops::Transfer;
use money::{Cents, Delta, Fault};
use rule_tests::{
    Ledger, Planned, account_in_range, account_is_full, account_keeps_floor, cents_after,
    drawer_is_held_by, first_denial, ledger_is_full, teller_is_of,
};
use std::alloc::Global;

/// The rows that a transfer is judged on, as far as they are there.
#[derive(Clone, Copy, Debug, PartialEq, Eq)]
pub struct TransferRows {
    /// The account that gives.
    pub source: Option<AccountRecord>,
    /// The account that takes.
    pub target: Option<AccountRecord>,
    /// The teller that it names, with its drawer.
    pub teller: Option<TellerRecord>,
    /// The history of the branch that it names.
    pub ledger: Option<Ledger>,
}

impl TransferRows {
    /// Of the rows as a store answers them.
    pub fn of(
        source: Option<AccountRecord>,
        target: Option<AccountRecord>,
        teller: Option<TellerRecord>,
        branch: Option<BranchRecord>,
    ) -> TransferRows
        ensures { result ≡ record { source = source; target = target; teller = teller; ledger = option_map ledger_of branch } }
    {
        TransferRows {
            source,
            target,
            teller,
            ledger: branch.map(|branch| Ledger::of(&branch)),
        }
    }
}

/// What a transfer leaves.
#[derive(Clone, Copy, Debug, PartialEq, Eq)]
pub struct Transferred {
    /// The branch in whose history the entries stand.
    pub branch: u32,
    /// The number of the entry at the account that gives.
    pub first: u32,
    /// The number of the entry at the account that takes.
    pub second: u32,
    /// The balance of the account that gives after it.
    pub source: Cents,
    /// The balance of the account that takes after it.
    pub target: Cents,
}

/// The plan of a transfer, or the first rule of the books that denies it. Only memory keeps it from
/// an answer.
pub fn plan_transfer(
    alloc: Global,
    rows: &TransferRows,
    transfer: &Transfer,
    by: Signature,
) -> Result<Result<Planned<Transferred>, Rule>, Fault>
    requires amount { transfer.now.amount ≤ max_transfer }
    ensures planned { IfOk result (IsPlanned (first_against_transfer rows.now transfer.now by) (transfer_changes rows.now transfer.now by) (transferred_of rows.now transfer.now)) }
    ensures denied { IfSome (first_against_transfer rows.now transfer.now by) (λ rule. result ≡ Ok (Err rule)) }
    ensures memory { IsOkUnless result Fault.Memory }
{
    if let Some(rule) = rule_against_transfer(rows, transfer, by) {
        return Ok(Err(rule));
    }
    let (Some(source), Some(target), Some(ledger)) = (rows.source, rows.target, rows.ledger) else {
        unreachable!();
    };
    let first = first_leg(&source, &ledger, transfer, by);
    let second = second_leg(&target, &ledger, transfer, by);
    let left = transferred_by(&source, &target, &first, &second);
    let mut plan = Vec::new(alloc);
    plan.push(RowWrite::Entry(first))?;
    plan.push(RowWrite::Entry(second))?;
    Ok(Ok(Planned { plan, left }))
}

/// The entry at the account that gives.
fn first_leg(source: &AccountRecord, ledger: &Ledger, transfer: &Transfer, by: Signature) -> Entry
    requires amount { transfer.now.amount ≤ max_transfer }
    requires turns { source.now.turns < max_key }
    requires entries { ledger.now.entries + 1 < max_key }
    ensures { result ≡ first_leg source.now ledger.now transfer.now by }
{
    Entry {
        branch: transfer.branch,
        number: (ledger.entries + 1) as u32,
        account: transfer.source,
        turn: (source.turns + 1) as u32,
        teller: transfer.teller,
        delta: Delta::new(taken(transfer)).unwrap(),
        moment: by.moment,
        day: ledger.day,
        user: by.user,
        form: EntryForm::TransferLeg,
        partner: (ledger.entries + 2) as u32,
        undoes: 0,
    }
}

/// The entry at the account that takes.
fn second_leg(target: &AccountRecord, ledger: &Ledger, transfer: &Transfer, by: Signature) -> Entry
    requires amount { transfer.now.amount ≤ max_transfer }
    requires turns { target.now.turns < max_key }
    requires entries { ledger.now.entries + 1 < max_key }
    ensures { result ≡ second_leg target.now ledger.now transfer.now by }
{
    Entry {
        branch: transfer.branch,
        number: (ledger.entries + 2) as u32,
        account: transfer.target,
        turn: (target.turns + 1) as u32,
        teller: transfer.teller,
        delta: Delta::new(given(transfer)).unwrap(),
        moment: by.moment,
        day: ledger.day,
        user: by.user,
        form: EntryForm::TransferLeg,
        partner: (ledger.entries + 1) as u32,
        undoes: 0,
    }
}

/// What is left by the entries of a transfer that no rule denies.
pub(crate) fn transferred_by(
    source: &AccountRecord,
    target: &AccountRecord,
    first: &Entry,
    second: &Entry,
) -> Transferred
    requires source { IsCents (source.now.balance +ℤ first.now.delta) }
    requires target { IsCents (target.now.balance +ℤ second.now.delta) }
    ensures { result ≡ record { branch = first.now.branch; first = first.now.number; second = second.now.number; source = source.now.balance +ℤ first.now.delta; target = target.now.balance +ℤ second.now.delta } }
{
    let (Some(source), Some(target)) = (
        cents_after(source.balance, first.delta.get()),
        cents_after(target.balance, second.delta.get()),
    ) else {
        unreachable!();
    };
    Transferred {
        branch: first.branch,
        first: first.number,
        second: second.number,
        source,
        target,
    }
}

/// What it adds to the account that gives.
fn taken(transfer: &Transfer) -> i64
    ensures { result ≡ taken transfer.now }
{
    -i64::from(transfer.amount)
}

/// What it adds to the account that takes.
fn given(transfer: &Transfer) -> i64
    ensures { result ≡ given transfer.now }
{
    i64::from(transfer.amount)
}

/// The first rule of the books that denies the transfer, or none. It takes no memory.
pub fn rule_against_transfer(
    rows: &TransferRows,
    transfer: &Transfer,
    by: Signature,
) -> Option<Rule>
    ensures first { result ≡ first_against_transfer rows.now transfer.now by }
    ensures known { IsNone result → is_unknown rows.now ≡ false }
    ensures source { IsNone result → IfSome rows.now.source (λ account. IsCents (account.balance +ℤ taken transfer.now)) }
    ensures target { IsNone result → IfSome rows.now.target (λ account. IsCents (account.balance +ℤ given transfer.now)) }
    ensures first_turns { IsNone result → IfSome rows.now.source (λ account. account.turns < max_key) }
    ensures second_turns { IsNone result → IfSome rows.now.target (λ account. account.turns < max_key) }
    ensures entries { IsNone result → IfSome rows.now.ledger (λ ledger. ledger.entries + 1 < max_key) }
{
    first_denial(&[
        (Rule::Unknown, is_unknown(rows)),
        (Rule::Branch, !teller_is_of(rows.teller, transfer.branch)),
        (Rule::Drawer, !drawer_is_held_by(rows.teller, by.user)),
        (Rule::Floor, !are_above_floors(rows, transfer)),
        (Rule::Range, !are_in_range(rows, transfer)),
        (Rule::Full, is_full(rows)),
    ])
}

fn is_unknown(rows: &TransferRows) -> bool
    ensures { result ≡ is_unknown rows.now }
{
    rows.source.is_none() || rows.target.is_none() || rows.teller.is_none() || rows.ledger.is_none()
}

fn are_above_floors(rows: &TransferRows, transfer: &Transfer) -> bool
    ensures { result ≡ are_above_floors rows.now transfer.now }
{
    account_keeps_floor(rows.source, taken(transfer))
        && account_keeps_floor(rows.target, given(transfer))
}

fn are_in_range(rows: &TransferRows, transfer: &Transfer) -> bool
    ensures { result ≡ are_in_range rows.now transfer.now }
{
    account_in_range(rows.source, taken(transfer)) && account_in_range(rows.target, given(transfer))
}

fn is_full(rows: &TransferRows) -> bool
    ensures { result ≡ is_full rows.now }
{
    ledger_is_full(rows.ledger, 2) || account_is_full(rows.source) || account_is_full(rows.target)
}
