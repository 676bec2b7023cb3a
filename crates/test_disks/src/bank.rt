//! The worked bank: the sample with a post at its counter and a release for Tess.

use crate::streams::{Exchange, FAILED, STOPPED, WORKED, is_reply, reply};
use bank_terms::MAX_VERSION;
use decide::{PolicyOp, Who, decide_policy};
use money::Fault;
use policy_commands::UserKey;
use store_rows::{Bank, Store};
use test_counter::Runtime;

/// Asks that a bank which is stopped answers each request by that.
fn stopped<S: Store>(rt: &impl Runtime, bank: &mut Bank<S>, stream: &[Exchange]) {
    for exchange in stream {
        let answer = reply(rt, bank, exchange);
        assert!(rt; is_reply(rt, answer.as_slice(), STOPPED));
    }
}

/// How many of these requests were answered by their reply. The one after them is answered by the fault of the disk,
/// and from then on the bank is stopped.
pub fn answered<S: Store>(rt: &impl Runtime, bank: &mut Bank<S>, stream: &[Exchange]) -> usize {
    let mut count = 0usize;
    for exchange in stream {
        let answer = reply(rt, bank, exchange);
        if !is_reply(rt, answer.as_slice(), exchange.due) {
            assert!(rt; is_reply(rt, answer.as_slice(), FAILED));
            stopped(rt, bank, stream);
            return count;
        }
        count = count.saturating_add(1);
    }
    count
}

/// Carries out the post and the release of the worked bank.
pub fn work<S: Store>(rt: &impl Runtime, bank: &mut Bank<S>) {
    assert!(rt; answered(rt, bank, &WORKED) == WORKED.len());
}

/// Olga asks for Tess to be suspended. Whether no rule denies it.
fn suspend_tess<S: Store>(rt: &impl Runtime, bank: &mut Bank<S>) -> Result<bool, Fault> {
    let olga = Who {
        user: Some(1),
        session: 1,
        release: 0,
        slip: 0,
    };
    let answer = decide_policy(
        bank,
        rt.alloc(),
        olga,
        PolicyOp::Suspend(UserKey { user: 7 }),
    )?;
    Ok(answer.is_ok())
}

/// What that command answers in a bank, which then has the last version.
pub fn last_command<S: Store>(rt: &impl Runtime, bank: &mut Bank<S>) -> Result<bool, Fault> {
    let answer = suspend_tess(rt, bank);
    assert!(rt; bank.store.version(rt.alloc()) == Ok(MAX_VERSION));
    answer
}
