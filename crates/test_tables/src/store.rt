//! The store over these tables beside the store in lists: each read answers the same.

use crate::compare::same;
use bank_books::{CashLine, Entry, EntryForm, LineForm, RowWrite, Slip};
use bank_policy::{PolicyWrite, Triple};
use bank_terms::{OperationRow, Procedure};
use money::{Cents, Delta, Fault};
use sample_bank::sample_world;
use sql_create::create;
use sqlite::{Alter, Connection, MemStore};
use std::alloc::Global;
use std::fmt::Debug;
use std::process::Abort;
use store_rows::{BookReads, ListStore, PolicyReads, ReportReads, SlipReads, Store, StoreState};
use store_sql::SqlStore;

/// The sample bank, made in a database with nothing in it.
pub fn sample_made<S: Alter + Drop>(
    rt: &impl Abort,
    alloc: Global,
    conn: Connection<S>,
) -> SqlStore<S> {
    assert!(rt; conn.is_autocommit());
    match create(alloc, conn, &sample_world(alloc).expect(rt, "memory")) {
        Ok(store) => store,
        Err((fault, _conn)) => panic!(rt; "{fault}"),
    }
}

/// The sample bank in tables in memory.
pub fn sample_tables(rt: &impl Abort, alloc: Global) -> SqlStore<MemStore> {
    sample_made(
        rt,
        alloc,
        Connection::open_in_memory(alloc).expect(rt, "memory"),
    )
}

/// The store over the tables of a connection.
pub fn store_over<S: Alter>(rt: &impl Abort, conn: Connection<S>) -> SqlStore<S> {
    assert!(rt; conn.is_autocommit());
    SqlStore::over(conn)
}

/// The connection to the tables of a store.
pub fn connection_of<S: Alter>(store: SqlStore<S>) -> Connection<S> {
    store.into_connection()
}

/// The sample bank in lists.
pub fn sample_lists(rt: &impl Abort, alloc: Global) -> ListStore {
    ListStore::new(sample_world(alloc).expect(rt, "memory"))
}

/// Asks for two answers that read alike, neither of them a fault.
fn alike<A: Debug + Drop>(
    rt: &impl Abort,
    alloc: Global,
    tables: Result<A, Fault>,
    lists: Result<A, Fault>,
) {
    let Ok(lists) = lists else {
        panic!(rt; "lists answer");
    };
    let given = format!(in alloc; "{:?}", tables.expect(rt, "no fault")).expect(rt, "memory");
    let wanted = format!(in alloc; "{lists:?}").expect(rt, "memory");
    assert!(rt;
        given.as_str() == wanted.as_str(),
        "{given} in the place of {wanted}"
    );
}

/// Asks two stores the same.
macro_rules! both {
    ($rt:expr, $alloc:expr, $tables:expr, $lists:expr, $read:ident($($word:expr),*)) => {
        alike(
            $rt,
            $alloc,
            $tables.$read($alloc $(, $word)*),
            $lists.$read($alloc $(, $word)*),
        )
    };
}

/// Asks for the same answers to every read that names this user.
fn same_user<S: Store, T: Store>(
    rt: &impl Abort,
    alloc: Global,
    tables: &mut S,
    lists: &mut T,
    user: u32,
) {
    both!(rt, alloc, tables, lists, user(user));
    both!(rt, alloc, tables, lists, triples(user));
    both!(rt, alloc, tables, lists, release(user, 1));
    both!(rt, alloc, tables, lists, slips(user));
    for number in [0, 4, 5, 6] {
        both!(rt, alloc, tables, lists, slip(user, number));
    }
    for procedure in [Procedure::Post, Procedure::Accounts, Procedure::CloseDay] {
        both!(rt, alloc, tables, lists, triples_of(user, procedure));
        both!(rt, alloc, tables, lists, certifier(user, procedure));
    }
}

/// Asks for the same answers to every read by which the policy is judged.
fn same_policy<S: Store, T: Store>(rt: &impl Abort, alloc: Global, tables: &mut S, lists: &mut T) {
    for user in 0..11 {
        same_user(rt, alloc, tables, lists, user);
    }
    for number in 0..7 {
        both!(rt, alloc, tables, lists, set(number));
    }
    both!(rt, alloc, tables, lists, relations_of(Procedure::Post));
    both!(rt, alloc, tables, lists, sets());
    both!(rt, alloc, tables, lists, version());
}

/// Asks for the same answers to every read that names this branch.
fn same_branch<S: Store, T: Store>(
    rt: &impl Abort,
    alloc: Global,
    tables: &mut S,
    lists: &mut T,
    branch: u32,
) {
    both!(rt, alloc, tables, lists, branch(branch));
    both!(rt, alloc, tables, lists, roster(branch));
    both!(rt, alloc, tables, lists, entry(branch, 1));
    both!(rt, alloc, tables, lists, undone(branch, 1));
    both!(rt, alloc, tables, lists, vault(branch));
}

/// Asks for the same answers to every read by which the books are judged.
fn same_books<S: Store, T: Store>(rt: &impl Abort, alloc: Global, tables: &mut S, lists: &mut T) {
    for account in [100, 101, 102, 201, 999] {
        both!(rt, alloc, tables, lists, account(account));
    }
    for teller in [10, 11, 12, 21] {
        both!(rt, alloc, tables, lists, teller(teller));
        both!(rt, alloc, tables, lists, drawer(teller));
    }
    for branch in 0..4 {
        same_branch(rt, alloc, tables, lists, branch);
    }
}

/// Asks for the same answers to every read that reports list of accounts and tellers.
fn same_reports<S: Store, T: Store>(rt: &impl Abort, alloc: Global, tables: &mut S, lists: &mut T) {
    for (start, count) in [(1, 10), (2, 1), (0, 3), (1, 0)] {
        both!(rt, alloc, tables, lists, entries_of(101, start, count));
        both!(rt, alloc, tables, lists, entry_at(101, start));
    }
    for after in [0, 10, 11, 12, 101, 102, 201] {
        both!(rt, alloc, tables, lists, next_teller(1, after));
        for user in [7, 9, 99] {
            for moment in [700, 800, 900, 901] {
                both!(rt, alloc, tables, lists, shown(user, after, 2, moment));
                both!(rt, alloc, tables, lists, next_shown(user, after, moment));
            }
        }
    }
}

/// Asks for the same listing of the policy, whole and row by row.
fn same_listing<S: Store, T: Store>(rt: &impl Abort, alloc: Global, tables: &mut S, lists: &mut T) {
    both!(rt, alloc, tables, lists, policy_rows());
    let mut after = None;
    for _ in 0..97 {
        both!(rt, alloc, tables, lists, next_policy(after));
        after = match lists.next_policy(alloc, after) {
            Ok(Some(row)) => Some(row.key()),
            _ => None,
        };
    }
}

/// Asks for the same answers to every read.
pub fn same_answers<S: Store, T: Store>(
    rt: &impl Abort,
    alloc: Global,
    tables: &mut S,
    lists: &mut T,
) {
    same_policy(rt, alloc, tables, lists);
    same_books(rt, alloc, tables, lists);
    same_reports(rt, alloc, tables, lists);
    same_listing(rt, alloc, tables, lists);
    assert!(rt; tables.faults() == 0);
}

/// Writes the entry of this number to a store.
pub fn write<S: Store>(rt: &impl Abort, alloc: Global, store: &mut S, number: u32) {
    let plan = vec![in alloc; entry(rt, number)].expect(rt, "memory");
    assert!(rt; store.apply(alloc, plan).is_ok());
}

/// The entry of a post to account 101, the branch's entry of this number.
fn entry(rt: &impl Abort, number: u32) -> RowWrite {
    RowWrite::Entry(Entry {
        branch: 1,
        number,
        account: 101,
        turn: number,
        teller: 11,
        delta: Delta::new(2_500).expect(rt, "an amount"),
        moment: 700,
        day: 1,
        user: 7,
        form: EntryForm::Post,
        partner: 0,
        undoes: 0,
    })
}

#[test]
fn tables_answer_as_lists_do(rt: HostRuntime) {
    let alloc = rt.alloc();
    let mut tables = sample_tables(&rt, alloc);
    let mut lists = sample_lists(&rt, alloc);
    same_answers(&rt, alloc, &mut tables, &mut lists);
    for number in 1..4 {
        write(&rt, alloc, &mut tables, number);
        write(&rt, alloc, &mut lists, number);
        same_answers(&rt, alloc, &mut tables, &mut lists);
    }
}

/// Takes this slip of a user with a post to account 101, of which that was replied.
fn take_slip<S: Store>(
    rt: &impl Abort,
    alloc: Global,
    store: &mut S,
    (user, number): (u32, u32),
    reply: &[u8],
) {
    let operation = OperationRow {
        form: Procedure::Post,
        members: [101, 11, 1, -2_500, 0, 0, 0, 0],
    };
    let reply = reply.to_vec(alloc).expect(rt, "memory");
    let slip = RowWrite::Slip(Slip::new(user, number, operation, reply));
    let plan = vec![in alloc; slip].expect(rt, "memory");
    assert!(rt; store.apply(alloc, plan).is_ok());
}

/// How many slips this user has in tables.
fn slips_in<S: Store>(rt: &impl Abort, alloc: Global, tables: &mut S, user: u32) -> u64 {
    tables.slips(alloc, user).expect(rt, "no fault")
}

/// Slips of two users, with one number of both of them, a reply with no bytes and one with any.
#[test]
fn tables_return_slips_as_lists_do(rt: HostRuntime) {
    let alloc = rt.alloc();
    let mut tables = sample_tables(&rt, alloc);
    let mut lists = sample_lists(&rt, alloc);
    for (slip, reply) in [
        ((7, 5), b"{\"balance\":52500}".as_slice()),
        ((8, 5), b"".as_slice()),
        ((7, 4), b"\x00\xff'\r\n".as_slice()),
    ] {
        take_slip(&rt, alloc, &mut tables, slip, reply);
        take_slip(&rt, alloc, &mut lists, slip, reply);
        same_answers(&rt, alloc, &mut tables, &mut lists);
    }
    for (user, count) in [(7, 2), (8, 1), (9, 0), (99, 0)] {
        assert!(rt; slips_in(&rt, alloc, &mut tables, user) == count, "{user}");
    }
}

/// How many lines the cash book of branch 1 has as the sample opens: those of two drawers that are put on.
const OPENING_LINES: u32 = 4;

/// The line of the branch's n-th post, at drawer 11.
fn line(rt: &impl Abort, number: u32) -> RowWrite {
    RowWrite::Line(CashLine {
        branch: 1,
        number: OPENING_LINES + number,
        place: 11,
        amount: Cents::new(2_500).expect(rt, "an amount"),
        form: LineForm::CashEntry,
        moment: 700,
        day: 1,
        user: 7,
    })
}

/// Posts in a store as requests do: the entry, its line and a slip of user 7, all of this number.
fn post<S: Store>(rt: &impl Abort, alloc: Global, store: &mut S, number: u32) {
    let operation = OperationRow {
        form: Procedure::Post,
        members: [101, 11, 1, 2_500, 0, 0, 0, 0],
    };
    let slip = Slip::new(7, number, operation, Vec::new(alloc));
    let rows = vec![in alloc; entry(rt, number), line(rt, number), RowWrite::Slip(slip)];
    assert!(rt; store.apply(alloc, rows.expect(rt, "memory")).is_ok());
}

/// What a store knows of the posts before it is what its tables have, which a second store over the same connection reads.
#[test]
fn rows_that_are_known_are_those_of_the_tables(rt: HostRuntime) {
    let alloc = rt.alloc();
    let mut tables = sample_tables(&rt, alloc);
    let mut lists = sample_lists(&rt, alloc);
    for number in 1..7 {
        post(&rt, alloc, &mut tables, number);
        post(&rt, alloc, &mut lists, number);
        same_answers(&rt, alloc, &mut tables, &mut lists);
        if number % 2 == 0 {
            tables = store_over(&rt, connection_of(tables));
            same_answers(&rt, alloc, &mut tables, &mut lists);
        }
    }
    assert!(rt; slips_in(&rt, alloc, &mut tables, 7) == 6);
}

/// Authorizes Sue to list the accounts of set 5 from moment 800 to 900.
fn grant_sue<S: Store>(rt: &impl Abort, alloc: Global, store: &mut S) {
    let grant = RowWrite::Policy(PolicyWrite::Triple(Triple {
        user: 9,
        procedure: Procedure::Accounts,
        set: 5,
        limit: 0,
        first: 800,
        last: 900,
    }));
    let plan = vec![in alloc; grant].expect(rt, "memory");
    assert!(rt; store.apply(alloc, plan).is_ok());
}

#[test]
fn tables_show_accounts_at_a_moment_as_lists_do(rt: HostRuntime) {
    let alloc = rt.alloc();
    let mut tables = sample_tables(&rt, alloc);
    let mut lists = sample_lists(&rt, alloc);
    grant_sue(&rt, alloc, &mut tables);
    grant_sue(&rt, alloc, &mut lists);
    same_answers(&rt, alloc, &mut tables, &mut lists);
    for (moment, count) in [(799, 0), (800, 2), (900, 2), (901, 0)] {
        let rows = tables.shown(alloc, 9, 0, 9, moment);
        assert!(rt; rows.expect(&rt, "no fault").len() == count, "{moment}");
    }
}

#[test]
fn a_plan_that_fits_no_row_stops_the_store(rt: HostRuntime) {
    let alloc = rt.alloc();
    let mut tables = sample_tables(&rt, alloc);
    let entries = vec![in alloc; entry(&rt, 1), entry(&rt, 3)];
    let plan = entries.expect(&rt, "memory");
    same(&rt, tables.apply(alloc, plan), Err(Fault::Disk));
    same(&rt, tables.version(alloc), Err(Fault::Stopped));
    same(&rt, tables.faults(), 2);
    let mut again = store_over(&rt, connection_of(tables));
    same_answers(&rt, alloc, &mut again, &mut sample_lists(&rt, alloc));
}
