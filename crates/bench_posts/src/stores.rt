//! The bank in the store that the arguments name, and how it is served.

use crate::arguments::{Arguments, StoreName};
use crate::timed::{Times, serve_timed};
use bank_books::World;
use bench_bank::synthetic_world;
use sql_create::create;
use sqlite::{Alter, Connection};
use std::alloc::Global;
use store_cached::Cached;
use store_rows::{ListStore, Store};
use store_sql::SqlStore;

/// The file that a bank is kept in.
const FILE: &str = "bank.db";

/// Makes the bank and serves it as the arguments say.
pub fn serve_in(rt: &HostRuntime, arguments: Arguments) -> Option<Times> {
    let world = synthetic_world(rt.alloc(), arguments.size).ok()??;
    serve_world(rt, arguments.store, world)
}

/// Serves this bank in the store of a name.
fn serve_world(rt: &HostRuntime, store: StoreName, world: World) -> Option<Times> {
    match store {
        StoreName::Lists => serve_timed(rt, ListStore::new(world)),
        StoreName::Tables => serve_in_memory(rt, world, false),
        StoreName::CachedTables => serve_in_memory(rt, world, true),
        StoreName::File => serve_in_file(rt, world, false),
        StoreName::CachedFile => serve_in_file(rt, world, true),
    }
}

/// Serves it in a database in memory.
fn serve_in_memory(rt: &HostRuntime, world: World, cached: bool) -> Option<Times> {
    let conn = Connection::open_in_memory(rt.alloc()).ok()?;
    serve_over(rt, conn, world, cached)
}

/// Serves it in a file, which is made.
fn serve_in_file(rt: &HostRuntime, world: World, cached: bool) -> Option<Times> {
    let conn = Connection::open(rt, FILE).ok()?;
    serve_over(rt, conn, world, cached)
}

/// Serves it in tables in this database, with a cache in front or without.
fn serve_over<S: Alter + Drop>(
    rt: &HostRuntime,
    conn: Connection<S>,
    world: World,
    cached: bool,
) -> Option<Times> {
    let store = made_in(rt.alloc(), conn, world)?;
    if cached {
        serve_cached(rt, store)
    } else {
        serve_timed(rt, store)
    }
}

/// Serves over this store with a cache in front.
fn serve_cached<S: Store + Drop>(rt: &HostRuntime, store: S) -> Option<Times> {
    serve_timed(rt, Cached::new(rt.alloc(), store).ok()?)
}

/// The bank made in this database.
fn made_in<S: Alter + Drop>(
    alloc: Global,
    conn: Connection<S>,
    world: World,
) -> Option<SqlStore<S>> {
    if !conn.is_autocommit() {
        return None;
    }
    create(alloc, conn, &world).ok()
}
