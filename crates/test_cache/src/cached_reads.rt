//! What of the policy two equal questions read, with a cache and without.

use crate::cached_rows::NO_TRIPLE;
use crate::counting::Counting;
use bank_books::{Plan, RowWrite};
use bank_policy::Session;
use bank_terms::Procedure;
use counter_ops::Balance;
use decide::{Decision, Op, Reply, Who, carry_out, decide};
use sample_bank::sample_world;
use std::alloc::Global;
use std::process::Abort;
use store_cached::Cached;
use store_rows::{Bank, ListStore, PolicyReads, Store};
use test_counter::Watched;

/// The sample in lists whose reads are counted.
pub(crate) fn counted_sample(rt: &impl Abort, alloc: Global) -> Watched<Counting> {
    let world = sample_world(alloc).expect(rt, "memory");
    Watched::new(ListStore::new(world), Counting::NEW)
}

/// Asks, as Tess, for the balance of account 101, which has to be returned.
fn balance_is_returned<S: Store>(rt: &impl Abort, alloc: Global, bank: &mut Bank<S>) {
    let tess = Who {
        user: Some(7),
        session: 1,
        release: 0,
        slip: 0,
    };
    let op = Op::Balance(Balance { account: 101 });
    match decide(bank, alloc, tess, 700, &op) {
        Ok(Decision::Allowed(permit)) => match carry_out(permit) {
            Ok(Reply::Done(done)) => {
                let body = done.into_body();
                assert!(rt; body.as_slice() == br#"{"balance":50000}"#.as_slice());
            }
            Ok(Reply::Report(report)) => {
                report.release();
                panic!(rt; "a report");
            }
            Err(fault) => panic!(rt; "{fault}"),
        },
        Ok(Decision::Repeated(done)) => {
            done.into_body();
            panic!(rt; "a repeat");
        }
        Ok(Decision::Denied(denial)) => panic!(rt; "{}", denial.rule().name()),
        Err(fault) => panic!(rt; "{fault}"),
    }
}

/// How often triples and relations were read once that balance was returned.
fn reads_after(rt: &impl Abort, alloc: Global, bank: &mut Bank<Watched<Counting>>) -> (u64, u64) {
    balance_is_returned(rt, alloc, bank);
    bank.store.watch().reads()
}

/// Without a cache each question reads the triples and the relations.
#[test]
fn each_question_reads_triples_and_relations(rt: HostRuntime) {
    let alloc = rt.alloc();
    let mut bank = Bank {
        store: counted_sample(&rt, alloc),
    };
    assert!(rt; reads_after(&rt, alloc, &mut bank) == (1, 1));
    assert!(rt; reads_after(&rt, alloc, &mut bank) == (2, 2));
}

/// That sample with a cache in front.
type CachedSample = Cached<Watched<Counting>>;

fn cached_sample(rt: &impl Abort, alloc: Global) -> Bank<CachedSample> {
    let store = Cached::new(alloc, counted_sample(rt, alloc)).ok();
    Bank {
        store: store.expect(rt, "memory"),
    }
}

/// How often triples and relations were read below the cache once that balance was returned.
fn reads_below_after(rt: &impl Abort, alloc: Global, bank: &mut Bank<CachedSample>) -> (u64, u64) {
    balance_is_returned(rt, alloc, bank);
    bank.store.below().watch().reads()
}

/// With a cache in front the second of two equal questions reads neither.
#[test]
fn the_second_question_reads_no_triples_and_no_relations(rt: HostRuntime) {
    let alloc = rt.alloc();
    let mut bank = cached_sample(&rt, alloc);
    assert!(rt; reads_below_after(&rt, alloc, &mut bank) == (1, 1));
    assert!(rt; reads_below_after(&rt, alloc, &mut bank) == (1, 1));
    assert!(rt; bank.store.into_below().watch().reads() == (1, 1));
}

/// How often triples and relations were read below the cache once it was asked for the triples by which a user
/// may post who has none.
fn reads_after_none(rt: &impl Abort, alloc: Global, store: &mut CachedSample) -> (u64, u64) {
    let rows = store.triples_of(alloc, 9_999, Procedure::Post);
    assert!(rt; rows.expect(rt, "no fault").is_empty());
    store.below().watch().reads()
}

/// That a user has no triples is read once, too.
#[test]
fn triples_that_are_not_there_are_read_once(rt: HostRuntime) {
    let alloc = rt.alloc();
    let mut store = cached_sample(&rt, alloc).store;
    assert!(rt; reads_after_none(&rt, alloc, &mut store) == (1, 0));
    assert!(rt; reads_after_none(&rt, alloc, &mut store) == (1, 0));
}

/// The version of the policy is read with them, and then not until a plan changes the policy.
#[test]
fn the_version_is_read_once_for_each_policy(rt: HostRuntime) {
    let alloc = rt.alloc();
    let mut store = cached_sample(&rt, alloc).store;
    for _ in 0..2 {
        assert!(rt; reads_after_none(&rt, alloc, &mut store) == (1, 0));
        assert!(rt; store.below().watch().all() == 2);
        store.apply(alloc, Plan::new(alloc)).expect(&rt, "no fault");
    }
    let change = vec![in alloc; RowWrite::Policy(NO_TRIPLE)];
    let applied = store.apply(alloc, change.expect(&rt, "memory"));
    applied.expect(&rt, "no fault");
    assert!(rt; reads_after_none(&rt, alloc, &mut store) == (2, 0));
    assert!(rt; store.below().watch().all() == 4);
}

/// How often rows were read below the cache once it was asked for the row of a user, who has to be in this session.
fn reads_after_user(rt: &impl Abort, alloc: Global, store: &mut CachedSample, session: u32) -> u64 {
    let found = store.user(alloc, 7).expect(rt, "no fault");
    let record = found.expect(rt, "a user");
    assert!(rt; record.standing.session == session);
    store.below().watch().all()
}

/// The row of a user is read once beside a version that is known, and again after a session of theirs.
#[test]
fn a_user_is_read_once_until_a_session(rt: HostRuntime) {
    let alloc = rt.alloc();
    let mut store = cached_sample(&rt, alloc).store;
    assert!(rt; reads_after_none(&rt, alloc, &mut store) == (1, 0));
    assert!(rt; reads_after_user(&rt, alloc, &mut store, 1) == 3);
    assert!(rt; reads_after_user(&rt, alloc, &mut store, 1) == 3);
    let session = Session {
        user: 7,
        session: 2,
        on: true,
    };
    let change = vec![in alloc; RowWrite::Session(session)];
    let applied = store.apply(alloc, change.expect(&rt, "memory"));
    applied.expect(&rt, "no fault");
    assert!(rt; reads_after_user(&rt, alloc, &mut store, 2) == 4);
    assert!(rt; reads_after_user(&rt, alloc, &mut store, 2) == 4);
    assert!(rt; reads_after_none(&rt, alloc, &mut store) == (1, 0));
}
