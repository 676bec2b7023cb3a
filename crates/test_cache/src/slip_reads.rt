//! How many rows are read of a bank for a post that bears a slip.

use crate::cached_reads::counted_sample;
use crate::counting::Counting;
use counter_ops::Post;
use decide::{Decision, Op, Reply, Who, carry_out, decide};
use money::Delta;
use std::alloc::Global;
use std::process::Abort;
use store_rows::Bank;
use test_counter::Watched;

/// Tess asks to post this amount to account 101. Answers how often rows were read for that.
fn reads_of_post(
    rt: &impl Abort,
    alloc: Global,
    bank: &mut Bank<Watched<Counting>>,
    tess: Who,
    delta: i64,
) -> u64 {
    let before = bank.store.watch().all();
    let op = Op::Post(Post {
        account: 101,
        branch: 1,
        delta: Delta::new(delta).expect(rt, "an amount"),
        teller: 11,
    });
    match decide(bank, alloc, tess, 700, &op) {
        Ok(Decision::Denied(denial)) => {
            let _ = denial.rule();
        }
        Ok(Decision::Repeated(done)) => {
            let _ = done.into_body();
        }
        Ok(Decision::Allowed(permit)) => match carry_out(permit) {
            Ok(Reply::Done(done)) => {
                let _ = done.into_body();
            }
            Ok(Reply::Report(report)) => {
                report.release();
                panic!(rt; "a report");
            }
            Err(fault) => panic!(rt; "{fault}"),
        },
        Err(fault) => panic!(rt; "{fault}"),
    }
    bank.store.watch().all().saturating_sub(before)
}

/// Tess in a session of this number, with this slip.
fn tess(session: u32, slip: u32) -> Who {
    Who {
        user: Some(7),
        session,
        release: 0,
        slip,
    }
}

/// After the row of the user who asks the slip alone is read, whether it is repeated or denied for another operation. For
/// a new slip two rows are read more than without one: the slip, and how many slips they have.
#[test]
fn of_a_slip_few_rows_are_read(rt: HostRuntime) {
    let alloc = rt.alloc();
    let mut bank = Bank {
        store: counted_sample(&rt, alloc),
    };
    let without = reads_of_post(&rt, alloc, &mut bank, tess(1, 0), 2_500);
    let with = reads_of_post(&rt, alloc, &mut bank, tess(1, 5), 2_500);
    assert!(rt; with == without.saturating_add(2), "{with} and {without}");
    assert!(rt; reads_of_post(&rt, alloc, &mut bank, tess(1, 5), 2_500) == 2);
    assert!(rt; reads_of_post(&rt, alloc, &mut bank, tess(1, 5), 2_501) == 2);
    assert!(rt; reads_of_post(&rt, alloc, &mut bank, tess(2, 5), 2_500) == 1);
}
