//! A bank in a file and its log, closed and opened again.

use crate::store::{connection_of, same_answers, sample_lists, sample_made, store_over, write};
use sqlite::{Alter, Connection, FileStore, Files, Options};
use sqlite_disk::{Disk, Memory};
use std::alloc::Global;
use std::process::Abort;
use store_rows::ListStore;

/// A connection to these files.
fn opened(rt: &impl Abort, alloc: Global, files: Files<Memory>) -> Connection<FileStore<Memory>> {
    if !files.may_be_used() {
        panic!(rt; "files that were synced");
    }
    match Connection::open_files(alloc, files, Options::new(7)) {
        Ok(conn) => conn,
        Err((error, _)) => panic!(rt; "{error}"),
    }
}

/// The files of a connection, into which its log was copied.
fn closed(rt: &impl Abort, conn: Connection<FileStore<Memory>>) -> Files<Memory> {
    match conn.close_files() {
        Ok(files) => files,
        Err((error, _)) => panic!(rt; "{error}"),
    }
}

/// The connection to a database with nothing in it, in which the sample bank is made.
fn sample_in<S: Alter + Drop>(
    rt: &impl Abort,
    alloc: Global,
    conn: Connection<S>,
) -> Connection<S> {
    connection_of(sample_made(rt, alloc, conn))
}

/// Asks the bank of a database, which has to answer as the one in lists does, and writes the entry of this number into
/// both.
fn asked_and_written<S: Alter>(
    rt: &impl Abort,
    alloc: Global,
    lists: &mut ListStore,
    conn: Connection<S>,
    number: u32,
) -> Connection<S> {
    let mut bank = store_over(rt, conn);
    same_answers(rt, alloc, &mut bank, lists);
    write(rt, alloc, &mut bank, number);
    write(rt, alloc, lists, number);
    connection_of(bank)
}

#[test]
fn a_bank_in_a_file_is_there_again(rt: HostRuntime) {
    let alloc = rt.alloc();
    let mut lists = sample_lists(&rt, alloc);
    let empty = Files {
        log: Memory::new(alloc),
        db: Memory::new(alloc),
    };
    let mut conn = sample_in(&rt, alloc, opened(&rt, alloc, empty));
    for number in 1..5 {
        let again = opened(&rt, alloc, closed(&rt, conn));
        conn = asked_and_written(&rt, alloc, &mut lists, again, number);
    }
}
