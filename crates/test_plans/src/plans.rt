//! What the plan of an operation makes of a bank, with its lines and proofs, which no store returns.

use crate::rows::cents;
use bank_books::{CashLine, LineForm, Plan, Signature, World};
use bank_terms::Rule;
use money::Fault;
use rule_tests::Planned;
use std::alloc::Global;
use std::process::Abort;

/// A line of branch 1 on its first day.
pub(crate) fn line(
    rt: &impl Abort,
    number: u32,
    place: u32,
    amount: i64,
    form: LineForm,
    by: Signature,
) -> CashLine {
    CashLine {
        branch: 1,
        number,
        place,
        amount: cents(rt, amount),
        form,
        moment: by.moment,
        day: 1,
        user: by.user,
    }
}

/// What is planned where no rule denies it.
pub(crate) fn undenied<T: Drop>(rt: &impl Abort, answer: Result<Result<T, Rule>, Fault>) -> T {
    match answer {
        Ok(Ok(planned)) => planned,
        Ok(Err(rule)) => panic!(rt; "{}", rule.name()),
        Err(fault) => panic!(rt; "{fault}"),
    }
}

/// The plan of an operation that no rule of the books denies.
pub(crate) fn plan_of<T: Drop>(
    rt: &impl Abort,
    answer: Result<Result<Planned<T>, Rule>, Fault>,
) -> Plan {
    undenied(rt, answer).plan
}

/// Has a bank apply a plan.
pub(crate) fn apply(rt: &impl Abort, alloc: Global, world: &mut World, plan: Plan) {
    assert!(rt; world.has_version_for(&plan));
    world.apply(alloc, plan).expect(rt, "memory");
}

/// Asks for `count` lines of a bank, of which these are the last.
pub(crate) fn lines_end_with(rt: &impl Abort, world: &World, count: usize, last: &[CashLine]) {
    assert!(rt; world.lines().len() == count);
    assert!(rt; world.lines().ends_with(last));
}
