//! The worked bank in files of the schema versions before the newest: the statements that make its tables and fill them.
//! They are what the programs of those versions left of the sample bank after the post and the release of the worked bank.

use crate::deeds::Deed;
use crate::disks::{Held, nothing};
use crate::whole_disks::done_in;
use test_counter::Runtime;

/// The tables before that of the triples.
const TABLES_BEFORE: [&str; 5] = [
    "CREATE TABLE bank (id INTEGER PRIMARY KEY, version INTEGER NOT NULL, policy INTEGER NOT NULL) STRICT",
    "CREATE TABLE users (user_no INTEGER PRIMARY KEY, name TEXT NOT NULL, officer INTEGER NOT NULL, suspended INTEGER NOT NULL, session INTEGER NOT NULL, is_on INTEGER NOT NULL, releases INTEGER NOT NULL) STRICT",
    "CREATE TABLE sets (set_no INTEGER PRIMARY KEY) STRICT",
    "CREATE TABLE members (set_no INTEGER NOT NULL, place INTEGER NOT NULL, kind INTEGER NOT NULL, low INTEGER NOT NULL, high INTEGER NOT NULL, PRIMARY KEY (set_no, place)) STRICT",
    "CREATE TABLE relations (procedure INTEGER NOT NULL, set_no INTEGER NOT NULL, by_user INTEGER NOT NULL, PRIMARY KEY (procedure, set_no)) STRICT",
];

/// And those after it.
const TABLES_AFTER: [&str; 8] = [
    "CREATE TABLE certifiers (user_no INTEGER NOT NULL, procedure INTEGER NOT NULL, PRIMARY KEY (user_no, procedure)) STRICT",
    "CREATE TABLE branches (branch INTEGER PRIMARY KEY, opening INTEGER NOT NULL, cash INTEGER NOT NULL, day INTEGER NOT NULL, balance INTEGER NOT NULL, vault INTEGER NOT NULL, entries INTEGER NOT NULL, lines INTEGER NOT NULL, accounts INTEGER NOT NULL, history INTEGER NOT NULL, drawers INTEGER NOT NULL, cash_entries INTEGER NOT NULL, differences INTEGER NOT NULL) STRICT",
    "CREATE TABLE tellers (teller INTEGER PRIMARY KEY, branch INTEGER NOT NULL, opening INTEGER NOT NULL, balance INTEGER NOT NULL, cash INTEGER NOT NULL, holder INTEGER NOT NULL) STRICT",
    "CREATE TABLE accounts (account INTEGER PRIMARY KEY, home INTEGER NOT NULL, opening INTEGER NOT NULL, floor INTEGER NOT NULL, balance INTEGER NOT NULL, turns INTEGER NOT NULL) STRICT",
    "CREATE TABLE entries (branch INTEGER NOT NULL, number INTEGER NOT NULL, account INTEGER NOT NULL, turn INTEGER NOT NULL, teller INTEGER NOT NULL, delta INTEGER NOT NULL, moment INTEGER NOT NULL, day INTEGER NOT NULL, user_no INTEGER NOT NULL, form INTEGER NOT NULL, partner INTEGER NOT NULL, undoes INTEGER NOT NULL, balance_after INTEGER NOT NULL, PRIMARY KEY (branch, number), UNIQUE (account, turn)) STRICT",
    "CREATE TABLE lines (branch INTEGER NOT NULL, number INTEGER NOT NULL, place INTEGER NOT NULL, amount INTEGER NOT NULL, form INTEGER NOT NULL, moment INTEGER NOT NULL, day INTEGER NOT NULL, user_no INTEGER NOT NULL, PRIMARY KEY (branch, number)) STRICT",
    "CREATE TABLE proofs (branch INTEGER NOT NULL, day INTEGER NOT NULL, entries INTEGER NOT NULL, balance INTEGER NOT NULL, cash INTEGER NOT NULL, PRIMARY KEY (branch, day)) STRICT",
    "CREATE TABLE releases (user_no INTEGER NOT NULL, number INTEGER NOT NULL, giver INTEGER NOT NULL, branch INTEGER NOT NULL, day INTEGER NOT NULL, form INTEGER NOT NULL, member1 INTEGER NOT NULL, member2 INTEGER NOT NULL, member3 INTEGER NOT NULL, member4 INTEGER NOT NULL, member5 INTEGER NOT NULL, member6 INTEGER NOT NULL, member7 INTEGER NOT NULL, member8 INTEGER NOT NULL, used INTEGER NOT NULL, PRIMARY KEY (user_no, number)) STRICT",
];

/// The rows that both versions have. Those of triples come after those of relations.
const ROWS: [&str; 11] = [
    "INSERT INTO users (user_no, name, officer, suspended, session, is_on, releases) VALUES (1, 'Olga', 1, 0, 1, 1, 0), (2, 'Carl', 0, 0, 1, 1, 0), (3, 'Cora', 0, 0, 1, 1, 0), (7, 'Tess', 0, 0, 1, 1, 1), (8, 'Tom', 0, 0, 1, 1, 0), (9, 'Sue', 0, 0, 1, 1, 0)",
    "INSERT INTO sets (set_no) VALUES (1), (2), (3), (4), (5)",
    "INSERT INTO members (set_no, place, kind, low, high) VALUES (1, 1, 1, 1, 999999), (1, 2, 2, 1, 999), (1, 3, 3, 1, 99), (1, 4, 4, 1, 99), (1, 5, 5, 1, 999), (1, 6, 6, 1, 99), (2, 1, 1, 101, 102), (2, 2, 1, 201, 201), (2, 3, 2, 11, 12), (2, 4, 3, 1, 1), (2, 5, 4, 1, 1), (2, 6, 5, 11, 12), (2, 7, 6, 1, 1), (3, 1, 1, 101, 101), (3, 2, 2, 11, 12), (3, 3, 3, 1, 1), (3, 4, 4, 1, 1), (3, 5, 5, 11, 12), (4, 1, 1, 102, 102), (4, 2, 2, 11, 12), (4, 3, 3, 1, 1), (4, 4, 4, 1, 1), (4, 5, 5, 11, 12), (5, 1, 1, 101, 150), (5, 2, 1, 102, 199)",
    "INSERT INTO relations (procedure, set_no, by_user) VALUES (1, 1, 2), (1, 2, 2), (2, 1, 2), (2, 2, 2), (2, 3, 2), (2, 4, 2), (3, 2, 2), (4, 2, 2), (5, 2, 2), (6, 2, 2), (7, 1, 2), (8, 1, 2), (9, 1, 2), (9, 2, 2), (10, 2, 2), (11, 5, 2), (12, 2, 2), (13, 2, 2)",
    "INSERT INTO certifiers (user_no, procedure) VALUES (2, 1), (2, 2), (2, 3), (2, 4), (2, 5), (2, 6), (2, 7), (2, 8), (2, 9), (2, 10), (2, 11), (2, 12), (2, 13), (3, 1), (3, 2), (3, 3), (3, 4), (3, 5), (3, 6), (3, 7), (3, 8), (3, 9), (3, 10), (3, 11), (3, 12), (3, 13)",
    "INSERT INTO branches (branch, opening, cash, day, balance, vault, entries, lines, accounts, history, drawers, cash_entries, differences) VALUES (1, 60000, 100000, 1, 62500, 55000, 1, 5, 2, 2500, 47500, 2500, 0), (2, 20000, 50000, 1, 20000, 50000, 0, 0, 1, 0, 0, 0, 0)",
    "INSERT INTO tellers (teller, branch, opening, balance, cash, holder) VALUES (11, 1, 60000, 62500, 42500, 7), (12, 1, 0, 0, 5000, 8), (21, 2, 20000, 20000, 0, 0)",
    "INSERT INTO accounts (account, home, opening, floor, balance, turns) VALUES (101, 1, 50000, 0, 52500, 1), (102, 1, 0, 0, 0, 0), (201, 2, 30000, 0, 30000, 0)",
    "INSERT INTO entries (branch, number, account, turn, teller, delta, moment, day, user_no, form, partner, undoes, balance_after) VALUES (1, 1, 101, 1, 11, 2500, 700, 1, 7, 1, 0, 0, 52500)",
    "INSERT INTO lines (branch, number, place, amount, form, moment, day, user_no) VALUES (1, 1, 0, -40000, 2, 0, 1, 7), (1, 2, 11, 40000, 2, 0, 1, 7), (1, 3, 0, -5000, 2, 0, 1, 8), (1, 4, 12, 5000, 2, 0, 1, 8), (1, 5, 11, 2500, 1, 700, 1, 7)",
    "INSERT INTO releases (user_no, number, giver, branch, day, form, member1, member2, member3, member4, member5, member6, member7, member8, used) VALUES (7, 1, 9, 1, 1, 1, 101, 11, 1, -500, 0, 0, 0, 0, 0)",
];

/// The table of the triples in the first version, where they have no moments.
const TRIPLES: &str =
    "CREATE TABLE triples (user_no INTEGER NOT NULL, procedure INTEGER NOT NULL, set_no INTEGER NOT NULL, ceiling INTEGER NOT NULL, PRIMARY KEY (user_no, procedure, set_no), FOREIGN KEY (procedure, set_no) REFERENCES relations (procedure, set_no) ON DELETE CASCADE) STRICT";

/// What the rows of that version are besides.
const ROWS_OF_FIRST: [&str; 2] = [
    "INSERT INTO bank (id, version, policy) VALUES (1, 1, 0)",
    "INSERT INTO triples (user_no, procedure, set_no, ceiling) VALUES (7, 1, 2, 999999), (7, 2, 3, 50000), (7, 2, 4, 50000), (7, 3, 2, 999999), (7, 4, 2, 100000), (7, 5, 2, 0), (7, 6, 2, 100000), (7, 9, 2, 0), (7, 10, 2, 0), (7, 11, 5, 0), (8, 1, 1, 1000), (8, 1, 2, 50000), (8, 2, 1, 1000), (8, 2, 2, 50000), (8, 3, 2, 999999), (8, 4, 2, 100000), (8, 5, 2, 0), (9, 7, 1, 0), (9, 8, 1, 999999), (9, 12, 2, 0), (9, 13, 2, 0)",
];

/// The table of the triples in the second.
const GRANTS: &str =
    "CREATE TABLE grants (user_no INTEGER NOT NULL, procedure INTEGER NOT NULL, set_no INTEGER NOT NULL, ceiling INTEGER NOT NULL, first_at INTEGER NOT NULL, last_at INTEGER NOT NULL, PRIMARY KEY (user_no, procedure, set_no), FOREIGN KEY (procedure, set_no) REFERENCES relations (procedure, set_no) ON DELETE CASCADE) STRICT";

/// The indexes of that version.
const INDEXES: [&str; 2] = [
    "CREATE INDEX entries_by_undoes ON entries (branch, undoes)",
    "CREATE INDEX tellers_by_branch ON tellers (branch, teller)",
];

/// What its rows are besides.
const ROWS_OF_SECOND: [&str; 2] = [
    "INSERT INTO bank (id, version, policy) VALUES (1, 2, 0)",
    "INSERT INTO grants (user_no, procedure, set_no, ceiling, first_at, last_at) VALUES (7, 1, 2, 999999, 0, 99999999999), (7, 2, 3, 50000, 0, 99999999999), (7, 2, 4, 50000, 0, 99999999999), (7, 3, 2, 999999, 0, 99999999999), (7, 4, 2, 100000, 0, 99999999999), (7, 5, 2, 0, 0, 99999999999), (7, 6, 2, 100000, 0, 99999999999), (7, 9, 2, 0, 0, 99999999999), (7, 10, 2, 0, 0, 99999999999), (7, 11, 5, 0, 0, 99999999999), (8, 1, 1, 1000, 0, 99999999999), (8, 1, 2, 50000, 0, 99999999999), (8, 2, 1, 1000, 0, 99999999999), (8, 2, 2, 50000, 0, 99999999999), (8, 3, 2, 999999, 0, 99999999999), (8, 4, 2, 100000, 0, 99999999999), (8, 5, 2, 0, 0, 99999999999), (9, 7, 1, 0, 0, 99999999999), (9, 8, 1, 999999, 0, 99999999999), (9, 12, 2, 0, 0, 99999999999), (9, 13, 2, 0, 0, 99999999999)",
];

/// What files hold after these statements.
fn changed_by(rt: &impl Runtime, mut held: Held, statements: &[&str]) -> Held {
    for statement in statements {
        held = done_in(rt, &held, Deed::Change(statement)).1;
    }
    held
}

/// What a file holds that has the tables alone, with this one of the triples.
fn tables(rt: &impl Runtime, triples: &str) -> Held {
    let begun = changed_by(rt, nothing(rt), &TABLES_BEFORE);
    changed_by(rt, changed_by(rt, begun, &[triples]), &TABLES_AFTER)
}

/// What the file of the worked bank holds in the first version, whose triples have no moments.
pub fn first_files(rt: &impl Runtime) -> Held {
    let filled = changed_by(rt, tables(rt, TRIPLES), &ROWS);
    changed_by(rt, filled, &ROWS_OF_FIRST)
}

/// What it holds in the second, which has no slips.
pub fn second_files(rt: &impl Runtime) -> Held {
    let made = changed_by(rt, tables(rt, GRANTS), &INDEXES);
    changed_by(rt, changed_by(rt, made, &ROWS), &ROWS_OF_SECOND)
}
