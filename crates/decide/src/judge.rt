//! An operation judged without its slip: by the policy first, and then by the books.

ghost use Rattle.std.specs.Prelude.{◌≡◌, IfOk, IsSome, false};
ghost use Rattle.bank_books.specs.Effects.{applied};
ghost use Rattle.bank_books.specs.Version.{changes_policy};
ghost use Rattle.bank_books.specs.WorldLists.{WorldLists};
ghost use Rattle.counter_ops.specs.Operations.{IsOp};
ghost use Rattle.op_prepare.specs.Judged.{IsReady, LeavesPolicyReady, ReportsOnly};
ghost use Rattle.bank_meaning.specs.Operations.{is_report};
ghost use Rattle.bank_meaning.specs.PolicyRules.{used_by};
ghost use Rattle.bank_meaning.specs.Executions.{execution_verdict};
ghost use Rattle.decide.specs.Slips.{DeniesWhereOrCounts, HasStanding, MayReadOf};

use crate::policy_rules::policy_authorization;
use bank_books::{Plan, ReleaseKey, RowWrite};
use bank_meaning::{Authorization, Execution};
use bank_policy::Standing;
use bank_terms::Rule;
use money::Fault;
use op_prepare::{Prepared, Ready, prepare_by_books};
use std::alloc::{AllocError, Global};
use store_rows::{BookReads, PolicyReads, ReportReads};

/// What carries an operation out beside its slip, or the first rule that denies it, where the row of the user who
/// asks says what is passed. The rules of the policy come
/// first: where one of them denies, no row is read that only the books ask about; of a release that is
/// named the day of its branch is. A report uses up no release, as it has no amount.
pub(crate) fn prepare<S: PolicyReads + BookReads + ReportReads>(
    alloc: Global,
    store: &mut S,
    asker: Option<Standing>,
    execution: &Execution,
) -> Result<Result<Ready, Rule>, Fault>
    requires named { IsSome execution.now.who.user }
    requires proper { IsOp execution.now.op }
    ensures judged { MayReadOf (S.status store.old) (S.status store.new) (λ w. HasStanding w execution.now asker) result (IsReady (execution_verdict execution.now)) }
    ensures reports { ReportsOnly (is_report execution.now.op) result }
    ensures denied { DeniesWhereOrCounts (S.status store.old) (S.status store.new) (λ w. HasStanding w execution.now asker) (λ w. (execution_verdict execution.now w).first) result }
    ensures policy { LeavesPolicyReady result }
{
    match policy_authorization(alloc, store, asker, execution)? {
        Err(rule) => Ok(Err(rule)),
        Ok(leave) => {
            let by = execution.signature();
            match prepare_by_books(alloc, store, &execution.op, by)? {
                Ok(Ready::Change(Prepared { plan, text })) => {
                    let plan = with_leave(plan, leave, by.user)?;
                    Ok(Ok(Ready::Change(Prepared { plan, text })))
                }
                Ok(Ready::Report(contents)) => Ok(Ok(Ready::Report(contents))),
                Err(rule) => Ok(Err(rule)),
            }
        }
    }
}

/// A plan of the books with what its authorization takes: a release is used up with it.
fn with_leave(mut plan: Plan, leave: Authorization, user: u32) -> Result<Plan, AllocError>
    ensures used { IfOk result (λ p. changes_policy plan.items ≡ false → (w : WorldLists) → applied p.items w ≡ used_by leave user (applied plan.items w)) }
    ensures policy { IfOk result (λ p. changes_policy p.items ≡ changes_policy plan.items) }
{
    match leave {
        Authorization::Triple => {}
        Authorization::Release(number) => plan.push(RowWrite::Used(ReleaseKey { user, number }))?,
    }
    Ok(plan)
}
