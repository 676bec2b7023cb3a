//! The sample in each store, where Tess may have slips before.

use crate::exchange::Exchange;
use bank_books::{Lists, Slip, World};
use bank_terms::{OperationRow, Procedure};
use book_check::BooksFault;
use sample_bank::{sample_policy, sample_world};
use sql_create::{OpenFault, create};
use sqlite::{Connection, MemStore};
use store_cached::Cached;
use store_rows::{Bank, ListStore, Store};
use store_sql::SqlStore;
use test_counter::Runtime;

/// Tess's post of 25.00 to account 101.
const POST: OperationRow = OperationRow {
    form: Procedure::Post,
    members: [101, 11, 1, 2_500, 0, 0, 0, 0],
};

/// So many slips of Tess, numbered from 1, each taken with that post. The stored reply of each states its number.
fn slips_of_tess(rt: &impl Runtime, count: u32) -> Vec<Slip> {
    let mut slips = Vec::new(rt.alloc());
    for number in 1..=count {
        let reply = format!(in rt.alloc(); r#"{{"kept":{number}}}"#).expect(rt, "memory");
        assert!(rt;
            slips
                .push(Slip::new(7, number, POST, reply.into_bytes()))
                .is_ok()
        );
    }
    slips
}

/// The sample bank, with n slips of Tess.
fn sample_with_slips(rt: &impl Runtime, slips: u32) -> World {
    let alloc = rt.alloc();
    let sample = sample_world(alloc).expect(rt, "memory");
    let mut lists = Lists::new(alloc);
    lists.branches = sample.branches().to_vec(alloc).expect(rt, "memory");
    lists.tellers = sample.tellers().to_vec(alloc).expect(rt, "memory");
    lists.accounts = sample.accounts().to_vec(alloc).expect(rt, "memory");
    lists.lines = sample.lines().to_vec(alloc).expect(rt, "memory");
    lists.slips = slips_of_tess(rt, slips);
    let policy = sample_policy(alloc).expect(rt, "memory");
    World::from_lists(lists, policy, 0).expect(rt, "rows in order")
}

/// That bank in lists.
fn in_lists(rt: &impl Runtime, slips: u32) -> ListStore {
    ListStore::new(sample_with_slips(rt, slips))
}

/// That bank in tables in memory, or why none was made.
fn made_with(rt: &impl Runtime, slips: u32) -> Result<SqlStore<MemStore>, OpenFault> {
    let conn = Connection::open_in_memory(rt.alloc()).expect(rt, "memory");
    assert!(rt; conn.is_autocommit());
    match create(rt.alloc(), conn, &sample_with_slips(rt, slips)) {
        Ok(store) => Ok(store),
        Err((fault, _conn)) => Err(fault),
    }
}

/// That bank in tables in memory.
fn in_tables(rt: &impl Runtime, slips: u32) -> SqlStore<MemStore> {
    match made_with(rt, slips) {
        Ok(store) => store,
        Err(fault) => panic!(rt; "{fault}"),
    }
}

/// Asks that no bank is made if Tess has n slips, as books out of range.
pub(crate) fn is_out_of_range(rt: &impl Runtime, slips: u32) {
    match made_with(rt, slips) {
        Ok(_) => panic!(rt; "{slips} slips"),
        Err(fault) => assert!(rt; fault == OpenFault::Books(BooksFault::Range)),
    }
}

/// The store with a cache in front.
fn with_cache<S: Store + Drop>(rt: &impl Runtime, store: S) -> Cached<S> {
    Cached::new(rt.alloc(), store).ok().expect(rt, "memory")
}

/// Has the exchanges made with a store, one after another.
fn over<S: Store + Drop>(rt: &impl Runtime, store: S, exchanges: &[Exchange]) {
    let mut bank = Bank { store };
    for exchange in exchanges {
        exchange.is_held(rt, &mut bank);
    }
}

/// Has the exchanges made with the sample in each store, one after another, with n slips of Tess.
pub(crate) fn over_each(rt: &impl Runtime, slips: u32, exchanges: &[Exchange]) {
    over(rt, in_lists(rt, slips), exchanges);
    over(rt, with_cache(rt, in_lists(rt, slips)), exchanges);
    over(rt, in_tables(rt, slips), exchanges);
    over(rt, with_cache(rt, in_tables(rt, slips)), exchanges);
}
