//! The SQL tables of a bank, without rows, in a file in memory.

use sqlite::{Connection, MemStore, Transaction};
use std::alloc::Global;
use std::process::Abort;

/// The definitions of all tables of a bank's file, and of its indexes.
const TABLES: [&str; 18] = [
    "CREATE TABLE bank (id INTEGER PRIMARY KEY, version INTEGER NOT NULL, policy INTEGER NOT NULL) STRICT",
    "CREATE TABLE users (user_no INTEGER PRIMARY KEY, name TEXT NOT NULL, officer INTEGER NOT NULL, suspended INTEGER NOT NULL, session INTEGER NOT NULL, is_on INTEGER NOT NULL, releases INTEGER NOT NULL) STRICT",
    "CREATE TABLE sets (set_no INTEGER PRIMARY KEY) STRICT",
    "CREATE TABLE members (set_no INTEGER NOT NULL, place INTEGER NOT NULL, kind INTEGER NOT NULL, low INTEGER NOT NULL, high INTEGER NOT NULL, PRIMARY KEY (set_no, place)) STRICT",
    "CREATE TABLE relations (procedure INTEGER NOT NULL, set_no INTEGER NOT NULL, by_user INTEGER NOT NULL, PRIMARY KEY (procedure, set_no)) STRICT",
    "CREATE TABLE grants (user_no INTEGER NOT NULL, procedure INTEGER NOT NULL, set_no INTEGER NOT NULL, ceiling INTEGER NOT NULL, first_at INTEGER NOT NULL, last_at INTEGER NOT NULL, PRIMARY KEY (user_no, procedure, set_no), FOREIGN KEY (procedure, set_no) REFERENCES relations (procedure, set_no) ON DELETE CASCADE) STRICT",
    "CREATE TABLE certifiers (user_no INTEGER NOT NULL, procedure INTEGER NOT NULL, PRIMARY KEY (user_no, procedure)) STRICT",
    "CREATE TABLE branches (branch INTEGER PRIMARY KEY, opening INTEGER NOT NULL, cash INTEGER NOT NULL, day INTEGER NOT NULL, balance INTEGER NOT NULL, vault INTEGER NOT NULL, entries INTEGER NOT NULL, lines INTEGER NOT NULL, accounts INTEGER NOT NULL, history INTEGER NOT NULL, drawers INTEGER NOT NULL, cash_entries INTEGER NOT NULL, differences INTEGER NOT NULL) STRICT",
    "CREATE TABLE tellers (teller INTEGER PRIMARY KEY, branch INTEGER NOT NULL, opening INTEGER NOT NULL, balance INTEGER NOT NULL, cash INTEGER NOT NULL, holder INTEGER NOT NULL) STRICT",
    "CREATE TABLE accounts (account INTEGER PRIMARY KEY, home INTEGER NOT NULL, opening INTEGER NOT NULL, floor INTEGER NOT NULL, balance INTEGER NOT NULL, turns INTEGER NOT NULL) STRICT",
    "CREATE TABLE entries (branch INTEGER NOT NULL, number INTEGER NOT NULL, account INTEGER NOT NULL, turn INTEGER NOT NULL, teller INTEGER NOT NULL, delta INTEGER NOT NULL, moment INTEGER NOT NULL, day INTEGER NOT NULL, user_no INTEGER NOT NULL, form INTEGER NOT NULL, partner INTEGER NOT NULL, undoes INTEGER NOT NULL, balance_after INTEGER NOT NULL, PRIMARY KEY (branch, number), UNIQUE (account, turn)) STRICT",
    "CREATE TABLE lines (branch INTEGER NOT NULL, number INTEGER NOT NULL, place INTEGER NOT NULL, amount INTEGER NOT NULL, form INTEGER NOT NULL, moment INTEGER NOT NULL, day INTEGER NOT NULL, user_no INTEGER NOT NULL, PRIMARY KEY (branch, number)) STRICT",
    "CREATE TABLE proofs (branch INTEGER NOT NULL, day INTEGER NOT NULL, entries INTEGER NOT NULL, balance INTEGER NOT NULL, cash INTEGER NOT NULL, PRIMARY KEY (branch, day)) STRICT",
    "CREATE TABLE releases (user_no INTEGER NOT NULL, number INTEGER NOT NULL, giver INTEGER NOT NULL, branch INTEGER NOT NULL, day INTEGER NOT NULL, form INTEGER NOT NULL, member1 INTEGER NOT NULL, member2 INTEGER NOT NULL, member3 INTEGER NOT NULL, member4 INTEGER NOT NULL, member5 INTEGER NOT NULL, member6 INTEGER NOT NULL, member7 INTEGER NOT NULL, member8 INTEGER NOT NULL, used INTEGER NOT NULL, PRIMARY KEY (user_no, number)) STRICT",
    "CREATE INDEX entries_by_undoes ON entries (branch, undoes)",
    "CREATE INDEX tellers_by_branch ON tellers (branch, teller)",
    "CREATE TABLE slips (user_no INTEGER NOT NULL, slip INTEGER NOT NULL, form INTEGER NOT NULL, member1 INTEGER NOT NULL, member2 INTEGER NOT NULL, member3 INTEGER NOT NULL, member4 INTEGER NOT NULL, member5 INTEGER NOT NULL, member6 INTEGER NOT NULL, member7 INTEGER NOT NULL, member8 INTEGER NOT NULL, reply BLOB NOT NULL, PRIMARY KEY (user_no, slip)) STRICT",
    "CREATE TABLE slip_counts (user_no INTEGER PRIMARY KEY, slips INTEGER NOT NULL) STRICT",
];

/// The tables of a file in memory, inside a transaction.
pub type Tables<'t> = Transaction<'t, MemStore>;

/// A file in memory with all tables, which hold no rows.
pub fn empty_tables(alloc: Global, rt: &impl Abort) -> Connection<MemStore> {
    let mut conn = Connection::open_in_memory(alloc).expect(rt, "memory");
    for text in TABLES {
        if conn.execute(text, &[]).is_err() {
            panic!(rt; "{text}");
        }
    }
    conn
}
