//! A bank that is made in a database and asked.

use crate::compare::same;
use crate::store::{connection_of, sample_tables, store_over};
use bank_books::{Account, Lists, World};
use book_check::BooksFault;
use money::Cents;
use sample_bank::{sample_policy, sample_world};
use sql_create::{OpenFault, make_bank};
use sqlite::{Alter, Connection};
use std::alloc::Global;
use std::process::Abort;
use store_rows::PolicyReads;

/// What making a bank of this World in a database answers.
fn made<S: Alter>(
    rt: &impl Abort,
    alloc: Global,
    conn: &mut Connection<S>,
    world: &World,
) -> Result<(), OpenFault> {
    assert!(rt; conn.is_autocommit());
    make_bank(alloc, conn, world)
}

/// The sample bank with an account of 1.00 that no entry brought.
fn unsound_world(rt: &impl Abort, alloc: Global) -> World {
    let mut world = sample_world(alloc).expect(rt, "memory");
    let beside = Account {
        account: 999,
        home: 1,
        opening: Cents::new(100).expect(rt, "an amount of money"),
        floor: Cents::new(0).expect(rt, "an amount of money"),
    };
    assert!(rt; world.add_account(beside).is_ok());
    world
}

#[test]
fn no_bank_is_made_over_another(rt: HostRuntime) {
    let alloc = rt.alloc();
    let world = sample_world(alloc).expect(&rt, "memory");
    let mut conn = connection_of(sample_tables(&rt, alloc));
    let answer = made(&rt, alloc, &mut conn, &world);
    same(&rt, answer, Err(OpenFault::NotEmpty));
}

#[test]
fn no_bank_is_made_whose_books_do_not_hold(rt: HostRuntime) {
    let alloc = rt.alloc();
    let mut conn = Connection::open_in_memory(alloc).expect(&rt, "memory");
    let unsound = unsound_world(&rt, alloc);
    let refused = Err(OpenFault::Books(BooksFault::ConditionA));
    same(&rt, made(&rt, alloc, &mut conn, &unsound), refused);
    let sound = sample_world(alloc).expect(&rt, "memory");
    same(&rt, made(&rt, alloc, &mut conn, &sound), Ok(()));
}

/// A bank whose policy was changed a million times before, as one that was kept in lists.
#[test]
fn a_bank_of_a_version_of_seven_digits_is_made_and_found(rt: HostRuntime) {
    let alloc = rt.alloc();
    let policy = sample_policy(alloc).expect(&rt, "memory");
    let world = World::from_lists(Lists::new(alloc), policy, 1_000_000);
    let world = world.expect(&rt, "rows in order");
    let mut conn = Connection::open_in_memory(alloc).expect(&rt, "memory");
    same(&rt, made(&rt, alloc, &mut conn, &world), Ok(()));
    let mut store = store_over(&rt, conn);
    same(&rt, store.version(alloc), Ok(1_000_000));
}
