//! Cash moved between two places of a branch: the rules against it, and the two cash lines that it writes.

ghost use Rattle.std.specs.Prelude.{◌≡◌, ◌+◌, ◌≤◌, ◌+ℤ◌, ◌||◌, ◌&&◌, [], ◌∷◌, None, option_map, if◌then◌else◌, IfOk, IfSome, IsNone, IsSomeAnd, IsOkUnless, Ok, Err};
ghost use Rattle.bank_terms.specs.Limits.{max_key};
ghost use Rattle.money.specs.Range.{IsCents};
ghost use Rattle.rule_tests.specs.BranchParts.{cash_book_of};
ghost use Rattle.rule_tests.specs.Planned.{IsPlanned};
ghost use Rattle.rule_tests.specs.Rules.{teller_is_of};
ghost use Rattle.drawers.specs.MoveCash.{first_against_move, from_source, into_drawers, into_target, is_in_range, is_missing, is_unknown, is_vault, may_move, move_changes, moved, moved_of, place_cash, place_covers, place_in_range, source_line, target_line};

use crate::amounts::{less_by, more_by, sum_of};
use bank_books::{BranchRecord, CashLine, LineForm, Plan, RowWrite, Signature, TellerRecord};
use bank_terms::Rule;
use counter_ops::MoveCash;
use money::{Cents, Fault};
use rule_tests::{
    CashBook, Planned, cash_book_is_full, drawer_covers, drawer_in_range, drawer_is_free,
    drawer_is_held_by, drawers_in_range, first_denial, teller_is_of, vault_covers, vault_in_range,
};
use std::alloc::Global;

/// The rows that a move of cash is judged on, as far as they are there.
#[derive(Clone, Copy, Debug, PartialEq, Eq)]
pub struct MoveRows {
    /// The teller whose drawer gives, with it; none where the vault gives.
    pub source: Option<TellerRecord>,
    /// The teller whose drawer takes, with it; none where the vault takes.
    pub target: Option<TellerRecord>,
    /// The cash book of the branch.
    pub cash_book: Option<CashBook>,
    /// The cash of its vault in cents, where the vault gives or takes.
    pub vault: Option<i128>,
}

impl MoveRows {
    /// Of the rows as a store answers them: no teller is asked for where the place is the vault.
    pub fn of(
        source: Option<TellerRecord>,
        target: Option<TellerRecord>,
        branch: Option<BranchRecord>,
        move_cash: &MoveCash,
    ) -> MoveRows
        ensures { result ≡ record { source = source; target = target; cash_book = option_map cash_book_of branch; vault = (if is_vault move_cash.now.source || is_vault move_cash.now.target then option_map (λ b. b.vault) branch else None) } }
    {
        let (cash_book, vault) = match branch {
            Some(branch) => (Some(CashBook::of(&branch)), Some(branch.vault)),
            None => (None, None),
        };
        MoveRows {
            source,
            target,
            cash_book,
            vault: if touches_vault(move_cash) {
                vault
            } else {
                None
            },
        }
    }
}

/// What a move of cash leaves.
#[derive(Clone, Copy, Debug, PartialEq, Eq)]
pub struct Moved {
    /// The cents that were moved.
    pub moved: u32,
    /// The cash of the place that gave.
    pub source: Cents,
    /// The cash of the place that took.
    pub target: Cents,
}

/// What carries a move of cash out, or the first rule of the books that denies it. Only memory keeps it
/// from an answer.
pub fn plan_move(
    alloc: Global,
    rows: &MoveRows,
    move_cash: &MoveCash,
    by: Signature,
) -> Result<Result<Planned<Moved>, Rule>, Fault>
    ensures planned { IfOk result (IsPlanned (first_against_move rows.now move_cash.now by) (move_changes rows.now move_cash.now by) (moved_of rows.now move_cash.now)) }
    ensures denied { IfSome (first_against_move rows.now move_cash.now by) (λ rule. result ≡ Ok (Err rule)) }
    ensures memory { IsOkUnless result Fault.Memory }
{
    if let Some(rule) = rule_against_move_cash(rows, move_cash, by) {
        return Ok(Err(rule));
    }
    let source = place_cash(move_cash.source, rows.source, rows.vault);
    let target = place_cash(move_cash.target, rows.target, rows.vault);
    let (Some(book), Some(source), Some(target)) = (rows.cash_book, source, target) else {
        unreachable!();
    };
    let plan = move_plan(alloc, &book, move_cash, by)?;
    let left = left_by(move_cash, source, target);
    Ok(Ok(Planned { plan, left }))
}

/// The first rule of the books that denies the move by this user, or none. It takes no memory.
pub fn rule_against_move_cash(rows: &MoveRows, move_cash: &MoveCash, by: Signature) -> Option<Rule>
    ensures first { result ≡ first_against_move rows.now move_cash.now by }
    ensures source { IsNone result → IsSomeAnd (place_cash move_cash.now.source rows.now.source rows.now.vault) (λ cash. IsCents (cash +ℤ from_source move_cash.now)) }
    ensures target { IsNone result → IsSomeAnd (place_cash move_cash.now.target rows.now.target rows.now.vault) (λ cash. IsCents (cash +ℤ into_target move_cash.now)) }
    ensures room { IsNone result → IfSome rows.now.cash_book (λ book. book.lines + 2 ≤ max_key) }
{
    first_denial(&[
        (Rule::Unknown, is_unknown(rows, move_cash)),
        (Rule::Branch, !is_of_branch(rows, move_cash.branch)),
        (Rule::Drawer, !may_move(rows, move_cash, by.user)),
        (Rule::Cash, !is_covered(rows, move_cash)),
        (Rule::Range, !is_in_range(rows, move_cash)),
        (Rule::Full, cash_book_is_full(rows.cash_book, 2)),
    ])
}

fn is_vault(place: u32) -> bool
    ensures { result ≡ is_vault place }
{
    place == 0
}

fn touches_vault(move_cash: &MoveCash) -> bool
    ensures { result ≡ (is_vault move_cash.now.source || is_vault move_cash.now.target) }
{
    is_vault(move_cash.source) || is_vault(move_cash.target)
}

/// Whether the place is no vault, and its teller is not there.
fn is_missing(place: u32, row: Option<TellerRecord>) -> bool
    ensures { result ≡ is_missing place row }
{
    !is_vault(place) && row.is_none()
}

fn is_unknown(rows: &MoveRows, move_cash: &MoveCash) -> bool
    ensures { result ≡ is_unknown rows.now move_cash.now }
{
    is_missing(move_cash.source, rows.source)
        || is_missing(move_cash.target, rows.target)
        || rows.cash_book.is_none()
        || (touches_vault(move_cash) && rows.vault.is_none())
}

/// Whether the tellers of both places are of a branch.
fn is_of_branch(rows: &MoveRows, branch: u32) -> bool
    ensures { result ≡ (teller_is_of rows.now.source branch && teller_is_of rows.now.target branch) }
{
    teller_is_of(rows.source, branch) && teller_is_of(rows.target, branch)
}

/// Who moves cash holds the drawer that gives it or, where that is the vault, the drawer that takes it;
/// and cash goes into no drawer that nobody holds.
fn may_move(rows: &MoveRows, move_cash: &MoveCash, user: u32) -> bool
    ensures { result ≡ may_move rows.now move_cash.now user }
{
    let held = if is_vault(move_cash.source) {
        rows.target
    } else {
        rows.source
    };
    drawer_is_held_by(held, user) && !drawer_is_free(rows.target)
}

/// The cash of a place, where it is there.
fn place_cash(place: u32, row: Option<TellerRecord>, vault: Option<i128>) -> Option<i128>
    ensures { result ≡ place_cash place row vault }
{
    if is_vault(place) {
        return vault;
    }
    match row {
        Some(teller) => Some(teller.cash),
        None => None,
    }
}

/// Whether the cash of a place and `added` cents are together not below zero.
fn place_covers(place: u32, row: Option<TellerRecord>, vault: Option<i128>, added: i64) -> bool
    ensures { result ≡ place_covers place row vault added }
{
    if is_vault(place) {
        vault_covers(vault, added)
    } else {
        drawer_covers(row, added)
    }
}

/// Whether the place that gives has what it gives.
fn is_covered(rows: &MoveRows, move_cash: &MoveCash) -> bool
    ensures { result ≡ place_covers move_cash.now.source rows.now.source rows.now.vault (from_source move_cash.now) }
{
    let taken = from_source(move_cash);
    place_covers(move_cash.source, rows.source, rows.vault, taken)
}

/// Whether it is an amount of money.
fn place_in_range(place: u32, row: Option<TellerRecord>, vault: Option<i128>, added: i64) -> bool
    ensures { result ≡ place_in_range place row vault added }
{
    if is_vault(place) {
        vault_in_range(vault, added)
    } else {
        drawer_in_range(row, added)
    }
}

/// What it adds to the place that gives.
fn from_source(move_cash: &MoveCash) -> i64
    ensures { result ≡ from_source move_cash.now }
{
    -i64::from(move_cash.amount)
}

/// What it adds to the place that takes.
fn into_target(move_cash: &MoveCash) -> i64
    ensures { result ≡ into_target move_cash.now }
{
    i64::from(move_cash.amount)
}

/// What it adds to the cash of all drawers together: nothing, where it goes from drawer to drawer.
fn into_drawers(move_cash: &MoveCash) -> i64
    ensures { result ≡ into_drawers move_cash.now }
{
    let taken = if is_vault(move_cash.target) {
        0
    } else {
        into_target(move_cash)
    };
    let given = if is_vault(move_cash.source) {
        0
    } else {
        from_source(move_cash)
    };
    taken + given
}

fn is_in_range(rows: &MoveRows, move_cash: &MoveCash) -> bool
    ensures { result ≡ is_in_range rows.now move_cash.now }
{
    let taken = from_source(move_cash);
    let given = into_target(move_cash);
    place_in_range(move_cash.source, rows.source, rows.vault, taken)
        && place_in_range(move_cash.target, rows.target, rows.vault, given)
        && drawers_in_range(rows.cash_book, into_drawers(move_cash))
}

/// The two lines of a move that no rule denies.
fn move_plan(
    alloc: Global,
    book: &CashBook,
    move_cash: &MoveCash,
    by: Signature,
) -> Result<Plan, Fault>
    requires { book.now.lines + 2 ≤ max_key }
    ensures lines { IfOk result (λ plan. plan.items ≡ RowWrite.Line (source_line book.now move_cash.now by) ∷ RowWrite.Line (target_line book.now move_cash.now by) ∷ []) }
    ensures memory { IsOkUnless result Fault.Memory }
{
    let mut plan = Vec::new(alloc);
    plan.push(RowWrite::Line(source_line(book, move_cash, by)))?;
    plan.push(RowWrite::Line(target_line(book, move_cash, by)))?;
    Ok(plan)
}

/// The line at the place that gives.
fn source_line(book: &CashBook, move_cash: &MoveCash, by: Signature) -> CashLine
    requires { book.now.lines + 2 ≤ max_key }
    ensures { result ≡ source_line book.now move_cash.now by }
{
    CashLine {
        branch: move_cash.branch,
        number: (book.lines + 1) as u32,
        place: move_cash.source,
        amount: less_by(move_cash.amount),
        form: LineForm::Move,
        moment: by.moment,
        day: book.day,
        user: by.user,
    }
}

/// The line at the place that takes.
fn target_line(book: &CashBook, move_cash: &MoveCash, by: Signature) -> CashLine
    requires { book.now.lines + 2 ≤ max_key }
    ensures { result ≡ target_line book.now move_cash.now by }
{
    CashLine {
        branch: move_cash.branch,
        number: (book.lines + 2) as u32,
        place: move_cash.target,
        amount: more_by(move_cash.amount),
        form: LineForm::Move,
        moment: by.moment,
        day: book.day,
        user: by.user,
    }
}

/// The cash of both places after a move that no rule denies.
fn left_by(move_cash: &MoveCash, source: i128, target: i128) -> Moved
    requires source { IsCents (source +ℤ from_source move_cash.now) }
    requires target { IsCents (target +ℤ into_target move_cash.now) }
    ensures { result ≡ moved move_cash.now source target }
{
    Moved {
        moved: move_cash.amount,
        source: sum_of(source, from_source(move_cash)),
        target: sum_of(target, into_target(move_cash)),
    }
}
