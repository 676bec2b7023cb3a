//! What is done with the bank of a database whose disk may fail, and what comes of it.
//!
//! All of it goes through one call at the type of the database, and one at that of its store: at each function that makes
//! such a call the prover shows anew that they give what is asked of them, which takes half a minute.

use crate::bank::{answered, last_command, work};
use crate::report_replies::{Asked, Ending, reported};
use crate::snapshots::{Snapshot, snapshot_of};
use crate::streams::Exchange;
use money::Fault;
use sample_bank::sample_world;
use sql_adopt::{AdoptFault, adopt, adopt_bank};
use sql_create::{OpenFault, make_bank};
use sql_upgrade::upgrade;
use sqlite::{Alter, Connection, FileStore};
use sqlite_disk::Disk;
use std::process::Abort;
use store_rows::Bank;
use store_sql::SqlStore;
use test_counter::Runtime;

/// What is done with a database.
#[derive(Clone, Copy, Debug)]
pub enum Deed<'a> {
    /// The sample bank is made there.
    Make,
    /// The tables are changed by these statements.
    Change(&'a str),
    /// A bank is looked for.
    Find,
    /// The bank, which has an older schema version, is carried over.
    Upgrade,
    /// A store takes the bank unseen.
    Open(Act<'a>),
    /// The bank is adopted.
    Adopt(Act<'a>),
}

/// What is done with a bank.
#[derive(Clone, Copy, Debug)]
pub enum Act<'a> {
    /// The post and the release of the worked bank are carried out.
    Work,
    /// These requests are served.
    Serve(&'a [Exchange]),
    /// A report is asked for.
    Ask(Asked<'a>),
    /// One more command is given, the last that the version has room for.
    Command,
    /// The bank is read for a snapshot.
    Read,
}

/// What comes of it.
#[derive(Drop)]
pub enum Outcome {
    /// It was done.
    Done,
    /// Whether the bank was made: the disk may have failed.
    Made(bool),
    /// Whether a bank was found.
    Found(Result<(), AdoptFault>),
    /// Whether the bank was carried over.
    Upgraded(Result<(), AdoptFault>),
    /// How many requests got their reply.
    Served(usize),
    /// How the reply to a report ended.
    Reported(Ending),
    /// What the command answers: whether no rule denies it.
    Commanded(Result<bool, Fault>),
    /// The snapshot of the bank.
    Read(Snapshot),
}

fn made<S: Alter>(rt: &impl Runtime, conn: &mut Connection<S>) -> Outcome {
    assert!(rt; conn.is_autocommit());
    let world = sample_world(rt.alloc()).expect(rt, "memory");
    let outcome = make_bank(rt.alloc(), conn, &world);
    assert!(rt; outcome.is_ok() || outcome == Err(OpenFault::Fault(Fault::Disk)));
    Outcome::Made(outcome.is_ok())
}

fn changed<S: Alter>(rt: &impl Abort, conn: &mut Connection<S>, change: &str) -> Outcome {
    if let Err(error) = conn.execute_batch(change) {
        panic!(rt; "{change}: {error}");
    }
    Outcome::Done
}

/// Does this with the bank of a store.
fn done_over<S: Alter>(
    rt: &impl Runtime,
    store: SqlStore<S>,
    act: Act<'_>,
) -> (Outcome, Connection<S>) {
    let mut bank = Bank { store };
    let outcome = match act {
        Act::Work => {
            work(rt, &mut bank);
            Outcome::Done
        }
        Act::Serve(stream) => Outcome::Served(answered(rt, &mut bank, stream)),
        Act::Ask(asked) => Outcome::Reported(reported(rt, &mut bank, asked)),
        Act::Command => Outcome::Commanded(last_command(rt, &mut bank)),
        Act::Read => Outcome::Read(snapshot_of(rt, &mut bank.store)),
    };
    (outcome, bank.store.into_connection())
}

fn upgraded<S: Alter>(rt: &impl Runtime, conn: Connection<S>) -> (Outcome, Connection<S>) {
    match upgrade(rt.alloc(), conn) {
        Ok(store) => (Outcome::Upgraded(Ok(())), store.into_connection()),
        Err((fault, conn)) => (Outcome::Upgraded(Err(fault)), conn),
    }
}

/// Does this with a database. Where its bank is not adopted, the connection is dropped.
fn done<S: Alter + Drop>(
    rt: &impl Runtime,
    mut conn: Connection<S>,
    deed: Deed<'_>,
) -> Result<(Outcome, Connection<S>), AdoptFault> {
    assert!(rt; conn.is_autocommit());
    match deed {
        Deed::Make => Ok((made(rt, &mut conn), conn)),
        Deed::Change(change) => Ok((changed(rt, &mut conn, change), conn)),
        Deed::Find => Ok((Outcome::Found(adopt_bank(rt.alloc(), &mut conn)), conn)),
        Deed::Upgrade => Ok(upgraded(rt, conn)),
        Deed::Open(act) => Ok(done_over(rt, SqlStore::over(conn), act)),
        Deed::Adopt(act) => match adopt(rt.alloc(), conn) {
            Ok(store) => Ok(done_over(rt, store, act)),
            Err((fault, _conn)) => Err(fault),
        },
    }
}

/// Does this with files, and answers what came of it, and the connection. It is lost where their bank is not adopted.
pub fn done_with<D: Disk + Drop>(
    rt: &impl Runtime,
    conn: Connection<FileStore<D>>,
    deed: Deed<'_>,
) -> Result<(Outcome, Connection<FileStore<D>>), AdoptFault> {
    done(rt, conn, deed)
}
