//! An operation with its slip: whether it repeats one that was made, and what its slip adds to its plan.

ghost use Rattle.std.specs.Prelude.{◌≡◌, ◌≢◌, ◌++◌, ◌∷◌, [], IfErr, IfOk, IsSome, None, Some, true};
ghost use Rattle.bank_books.specs.declared.row_write.RowWrite.TheVariants as write;
ghost use Rattle.bank_terms.specs.Procedure.{takes_slip};
ghost use Rattle.counter_ops.specs.Op.{procedure_of};
ghost use Rattle.counter_ops.specs.Operations.{IsOp};
ghost use Rattle.counter_ops.specs.Rows.{row_of};
ghost use Rattle.store_rows.specs.Status.{Reads};
ghost use Rattle.bank_meaning.specs.Executions.{execution_verdict};
ghost use Rattle.bank_meaning.specs.NamedRelease.{is_same_operation};
ghost use Rattle.bank_meaning.specs.Operations.{is_report};
ghost use Rattle.bank_meaning.specs.Requests.{executes};
ghost use Rattle.bank_meaning.specs.Run.{denied_by};
ghost use Rattle.bank_meaning.specs.Slips.{slip_named};
ghost use Rattle.op_prepare.specs.Judged.{DeniesOrCounts};
ghost use Rattle.decide.specs.Slips.{DeniesWhereOrCounts, HasStanding, IsJudgedWithSlip, IsNewTo, IsOfFound, JudgesReportsOnly, MayReadOf, MayReadRow, or_full};

use crate::judge::prepare;
use crate::named_release::is_same_operation;
use crate::policy_rules::{is_identified, policy_authorization};
use bank_books::{Plan, RowWrite, Slip};
use bank_meaning::Execution;
use bank_policy::Standing;
use bank_terms::{MAX_SLIPS, OperationRow, Rule};
use command_reads::standing_of;
use money::Fault;
use op_prepare::{Prepared, Ready, first_of_books, load_book_rows};
use std::alloc::{AllocError, Global};
use store_rows::{BookReads, PolicyReads, ReportReads, SlipReads};

/// What is judged of an operation with its slip.
pub(crate) enum Judgement {
    /// The first rule that denies it.
    Denied(Rule),
    /// It repeats one that was made: what was replied then.
    Repeated(Vec<u8>),
    /// No rule denies it: what carries it out.
    Ready(Ready),
}

/// What is judged of an operation with its slip. Whether it repeats one that was made is asked right
/// after the rule on identity. The row of the user who asks is read once.
pub(crate) fn prepare_with_slip<S: PolicyReads + BookReads + ReportReads + SlipReads>(
    alloc: Global,
    store: &mut S,
    execution: &Execution,
) -> Result<Judgement, Fault>
    requires named { IsSome execution.now.who.user }
    requires proper { IsOp execution.now.op }
    ensures judged { Reads (S.status store.old) (S.status store.new) result (λ w judged. IsJudgedWithSlip w execution.now judged) }
    ensures reports { IfOk result (JudgesReportsOnly (is_report execution.now.op)) }
    ensures denied { DeniesOrCounts (S.status store.old) (S.status store.new) (λ w. denied_by w (executes execution.now)) result }
{
    let Some(user) = execution.who.user else {
        unreachable!();
    };
    let asker = standing_of(alloc, store, user)?;
    let number = execution.slip();
    if number == 0 {
        return prepare_without_slip(alloc, store, asker, execution);
    }
    if !is_identified(asker, execution.who.session) {
        return Ok(Judgement::Denied(Rule::Identity));
    }
    match store.slip(alloc, user, number)? {
        Some(slip) => Ok(judged_by(alloc, &slip, execution)?),
        None => prepare_with_new_slip(alloc, store, asker, user, number, execution),
    }
}

/// What a slip that its user has makes of an operation. A denial takes no memory.
fn judged_by(alloc: Global, slip: &Slip, execution: &Execution) -> Result<Judgement, AllocError>
    ensures judged { IfOk result (λ judged. IsOfFound slip.now execution.now judged) }
    ensures repeats { IfErr result (λ _. is_same_operation slip.now.operation (row_of execution.now.op) ≡ true) }
{
    if is_same_operation(&slip.operation(), &execution.op.to_row()) {
        Ok(Judgement::Repeated(Vec::from_slice(alloc, slip.reply())?))
    } else {
        Ok(Judgement::Denied(Rule::Slip))
    }
}

/// The same where no slip is named, and the row of the user who asks says what is passed.
fn prepare_without_slip<S: PolicyReads + BookReads + ReportReads>(
    alloc: Global,
    store: &mut S,
    asker: Option<Standing>,
    execution: &Execution,
) -> Result<Judgement, Fault>
    requires named { IsSome execution.now.who.user }
    requires proper { IsOp execution.now.op }
    requires none { slip_named execution.now ≡ 0 }
    ensures judged { MayReadOf (S.status store.old) (S.status store.new) (λ w. HasStanding w execution.now asker) result (λ w judged. IsJudgedWithSlip w execution.now judged) }
    ensures reports { IfOk result (JudgesReportsOnly (is_report execution.now.op)) }
    ensures denied { DeniesWhereOrCounts (S.status store.old) (S.status store.new) (λ w. HasStanding w execution.now asker) (λ w. denied_by w (executes execution.now)) result }
{
    match prepare(alloc, store, asker, execution)? {
        Ok(ready) => Ok(Judgement::Ready(ready)),
        Err(rule) => Ok(Judgement::Denied(rule)),
    }
}

/// The same where a slip is named that its user has not: it is taken with the operation, and there has to be
/// room for it. That is asked before a plan is formed, as a denial takes no memory.
fn prepare_with_new_slip<S: PolicyReads + BookReads + ReportReads + SlipReads>(
    alloc: Global,
    store: &mut S,
    asker: Option<Standing>,
    user: u32,
    number: u32,
    execution: &Execution,
) -> Result<Judgement, Fault>
    requires named { execution.now.who.user ≡ Some user }
    requires proper { IsOp execution.now.op }
    requires number { slip_named execution.now ≡ number }
    requires some { number ≢ 0 }
    ensures judged { MayReadOf (S.status store.old) (S.status store.new) (λ w. IsNewTo w execution.now asker user number) result (λ w judged. IsJudgedWithSlip w execution.now judged) }
    ensures reports { IfOk result (JudgesReportsOnly (is_report execution.now.op)) }
    ensures denied { DeniesWhereOrCounts (S.status store.old) (S.status store.new) (λ w. IsNewTo w execution.now asker user number) (λ w. denied_by w (executes execution.now)) result }
{
    if store.slips(alloc, user)? >= MAX_SLIPS {
        let first = rule_with_no_room(alloc, store, asker, execution)?;
        return Ok(Judgement::Denied(first));
    }
    match prepare(alloc, store, asker, execution)? {
        Err(rule) => Ok(Judgement::Denied(rule)),
        Ok(Ready::Change(Prepared { plan, text })) => {
            let operation = execution.op.to_row();
            let plan = with_slip(alloc, plan, user, number, operation, &text)?;
            Ok(Judgement::Ready(Ready::Change(Prepared { plan, text })))
        }
        Ok(Ready::Report(_)) => unreachable!(),
    }
}

/// The first rule against an operation whose slip has no room: that the counts are full comes after each other
/// rule that denies it. The rows that it is judged on are read alone, and no plan is formed.
fn rule_with_no_room<S: PolicyReads + BookReads>(
    alloc: Global,
    store: &mut S,
    asker: Option<Standing>,
    execution: &Execution,
) -> Result<Rule, Fault>
    requires named { IsSome execution.now.who.user }
    requires takes { takes_slip (procedure_of execution.now.op) ≡ true }
    ensures { MayReadRow (S.status store.old) (S.status store.new) (λ w. HasStanding w execution.now asker) result (λ w rule. rule ≡ or_full (execution_verdict execution.now w).first) }
{
    match policy_authorization(alloc, store, asker, execution)? {
        Err(rule) => Ok(rule),
        Ok(_) => {
            let rows = load_book_rows(alloc, store, &execution.op)?;
            match first_of_books(&rows, &execution.op, execution.signature()) {
                Some(rule) => Ok(rule),
                None => Ok(Rule::Full),
            }
        }
    }
}

/// A plan and, after it, a slip that is taken with this operation and this reply.
fn with_slip(
    alloc: Global,
    mut plan: Plan,
    user: u32,
    number: u32,
    operation: OperationRow,
    text: &[u8],
) -> Result<Plan, AllocError>
    ensures { IfOk result (λ p. p.items ≡ plan.items ++ write.Slip (record { user = user; number = number; operation = operation; reply = text.now }) ∷ []) }
{
    let reply = Vec::from_slice(alloc, text)?;
    plan.push(RowWrite::Slip(Slip::new(user, number, operation, reply)))?;
    Ok(plan)
}
