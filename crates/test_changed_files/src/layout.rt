//! Files that hold no bank, or a bank in other tables, and which fault is reported first.

use crate::refusals::{judged, refused, refused_for};
use book_check::BooksFault;
use policy_check::PolicyFault;
use sql_adopt::AdoptFault;
use test_disks::nothing;

#[test]
fn an_empty_file_is_no_bank(rt: HostRuntime) {
    let answer = judged(&rt, &nothing(&rt), "");
    assert!(rt; answer == Err(AdoptFault::NotABank));
}

#[test]
fn a_bank_has_one_row_of_its_own(rt: HostRuntime) {
    refused(
        &rt,
        &[
            ("DELETE FROM bank", AdoptFault::NotABank),
            (
                "INSERT INTO bank (id, version, policy) VALUES (2, 1, 0)",
                AdoptFault::NotABank,
            ),
            ("UPDATE bank SET id = 2", AdoptFault::NotABank),
            ("UPDATE bank SET version = 7", AdoptFault::Version),
            ("UPDATE bank SET version = 4", AdoptFault::Version),
            ("UPDATE bank SET version = 2", AdoptFault::Version),
            ("UPDATE bank SET version = 1", AdoptFault::Version),
            ("UPDATE bank SET version = 0", AdoptFault::Version),
        ],
    );
}

#[test]
fn a_bank_has_its_tables_of_the_books(rt: HostRuntime) {
    refused_for(
        &rt,
        AdoptFault::NotABank,
        &[
            "DROP TABLE bank",
            "DROP TABLE branches",
            "DROP TABLE tellers",
            "DROP TABLE accounts",
            "DROP TABLE entries",
            "DROP TABLE lines",
            "DROP TABLE proofs",
            "DROP TABLE releases",
            "DROP TABLE slips",
            "DROP TABLE slip_counts",
        ],
    );
}

#[test]
fn a_bank_has_its_tables_of_the_policy(rt: HostRuntime) {
    refused_for(
        &rt,
        AdoptFault::NotABank,
        &[
            "DROP TABLE users",
            "DROP TABLE users; CREATE TABLE users (user_no INTEGER PRIMARY KEY, name TEXT NOT NULL) STRICT",
            "DROP TABLE sets",
            "DROP TABLE members",
            "DROP TABLE grants; DROP TABLE relations",
            "DROP TABLE grants",
            "DROP TABLE certifiers",
        ],
    );
}

#[test]
fn the_version_is_reported_before_the_tables_the_books_and_the_policy(rt: HostRuntime) {
    refused(
        &rt,
        &[
            (
                "UPDATE bank SET version = 7; DROP TABLE lines",
                AdoptFault::Version,
            ),
            (
                "UPDATE tellers SET cash = 0; DROP TABLE certifiers",
                AdoptFault::NotABank,
            ),
            (
                "UPDATE tellers SET cash = 0 WHERE teller = 12; UPDATE members SET kind = 9",
                AdoptFault::Books(BooksFault::Cash { branch: 1 }),
            ),
            (
                "INSERT INTO grants VALUES (2, 1, 2, 500, 0, 99999999999); UPDATE members SET kind = 9 WHERE set_no = 5",
                AdoptFault::Policy(PolicyFault::Dangling),
            ),
        ],
    );
}

#[test]
fn a_table_that_is_not_there_is_reported_before_any_value(rt: HostRuntime) {
    refused(
        &rt,
        &[
            (
                "UPDATE bank SET policy = -1; DROP TABLE lines",
                AdoptFault::NotABank,
            ),
            (
                "UPDATE entries SET form = 4; DROP TABLE releases",
                AdoptFault::NotABank,
            ),
            (
                "UPDATE entries SET form = 4; DROP TABLE slips",
                AdoptFault::NotABank,
            ),
            (
                "UPDATE members SET kind = 9; DROP TABLE grants",
                AdoptFault::NotABank,
            ),
            (
                "UPDATE bank SET policy = -1; UPDATE members SET kind = 9",
                AdoptFault::Books(BooksFault::Range),
            ),
        ],
    );
}
