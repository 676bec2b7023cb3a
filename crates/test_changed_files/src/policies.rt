//! Policies that dangle, in which an officer holds something, or in which a user may execute what they certify.

use crate::refusals::{refused, refused_for};
use bank_terms::Procedure;
use book_check::BooksFault;
use policy_check::PolicyFault;
use sql_adopt::AdoptFault;

const DANGLING: AdoptFault = AdoptFault::Policy(PolicyFault::Dangling);

const RANGE: AdoptFault = AdoptFault::Books(BooksFault::Range);

const OFFICER: AdoptFault = AdoptFault::Policy(PolicyFault::OfficerHolds { user: 1 });

/// The user may post, and certifies posts.
fn posts(user: u32) -> AdoptFault {
    AdoptFault::Policy(PolicyFault::Separation {
        user,
        procedure: Procedure::Post,
    })
}

#[test]
fn nobody_executes_what_they_certify(rt: HostRuntime) {
    refused(
        &rt,
        &[
            (
                "INSERT INTO grants VALUES (3, 1, 2, 500, 0, 99999999999)",
                posts(3),
            ),
            (
                "INSERT INTO grants VALUES (3, 1, 2, 500, 0, 99999999999); INSERT INTO grants VALUES (2, 2, 1, 0, 0, 99999999999); INSERT INTO grants VALUES (2, 1, 1, 0, 0, 99999999999)",
                posts(2),
            ),
            (
                "UPDATE relations SET by_user = 7 WHERE procedure = 1 AND set_no = 1",
                posts(7),
            ),
        ],
    );
}

#[test]
fn an_officer_holds_nothing(rt: HostRuntime) {
    refused_for(
        &rt,
        OFFICER,
        &[
            "INSERT INTO grants VALUES (1, 9, 2, 0, 0, 99999999999)",
            "INSERT INTO certifiers VALUES (1, 9)",
            "UPDATE relations SET by_user = 1 WHERE procedure = 9 AND set_no = 2",
        ],
    );
}

#[test]
fn rows_of_users_and_sets_do_not_dangle(rt: HostRuntime) {
    refused_for(
        &rt,
        DANGLING,
        &[
            "UPDATE users SET name = '' WHERE user_no = 9",
            "INSERT INTO users VALUES (10000, 'Zoe', 0, 0, 1, 1, 0); INSERT INTO slip_counts VALUES (10000, 0)",
            "INSERT INTO sets VALUES (6)",
            "DELETE FROM sets WHERE set_no = 5",
            "UPDATE members SET kind = 9 WHERE set_no = 1 AND place = 1",
            "UPDATE members SET place = 3 WHERE set_no = 5 AND place = 2",
            "UPDATE members SET low = 151 WHERE set_no = 5 AND place = 1",
        ],
    );
}

#[test]
fn rows_of_relations_triples_and_certifiers_do_not_dangle(rt: HostRuntime) {
    refused_for(
        &rt,
        DANGLING,
        &[
            "UPDATE relations SET by_user = 99 WHERE procedure = 11",
            "INSERT INTO relations VALUES (13, 6, 2)",
            "INSERT INTO relations VALUES (14, 1, 2)",
            "INSERT INTO grants VALUES (99, 1, 1, 0, 0, 99999999999)",
            "UPDATE grants SET ceiling = 1000000000 WHERE user_no = 8 AND procedure = 2",
            "UPDATE grants SET first_at = 801, last_at = 800 WHERE user_no = 8 AND procedure = 2",
            "UPDATE grants SET last_at = 100000000000 WHERE user_no = 8 AND procedure = 2",
            "UPDATE grants SET first_at = -1 WHERE user_no = 8 AND procedure = 2",
            "INSERT INTO certifiers VALUES (99, 1)",
            "INSERT INTO certifiers VALUES (2, 0)",
        ],
    );
}

#[test]
fn numbers_and_names_of_users_are_reported_after_all_rows_of_the_books(rt: HostRuntime) {
    refused(
        &rt,
        &[
            ("UPDATE users SET user_no = -1 WHERE user_no = 9", DANGLING),
            (
                "UPDATE users SET user_no = 4294967296 WHERE user_no = 9",
                DANGLING,
            ),
            (
                "UPDATE users SET name = CAST(x'ff' AS TEXT) WHERE user_no = 9",
                DANGLING,
            ),
            (
                "UPDATE users SET user_no = -1 WHERE user_no = 9; DROP TABLE certifiers",
                AdoptFault::NotABank,
            ),
            (
                "UPDATE users SET user_no = -1 WHERE user_no = 9; UPDATE users SET officer = 2 WHERE user_no = 8",
                RANGE,
            ),
            (
                "UPDATE users SET user_no = -1 WHERE user_no = 9; UPDATE lines SET form = 6",
                RANGE,
            ),
        ],
    );
}

#[test]
fn nobody_is_a_user_twice(rt: HostRuntime) {
    refused(
        &rt,
        &[(
            "CREATE TABLE copies (user_no INTEGER NOT NULL, name TEXT NOT NULL, officer INTEGER NOT NULL, suspended INTEGER NOT NULL, session INTEGER NOT NULL, is_on INTEGER NOT NULL, releases INTEGER NOT NULL) STRICT; INSERT INTO copies SELECT * FROM users; DROP TABLE users; CREATE TABLE users (user_no INTEGER NOT NULL, name TEXT NOT NULL, officer INTEGER NOT NULL, suspended INTEGER NOT NULL, session INTEGER NOT NULL, is_on INTEGER NOT NULL, releases INTEGER NOT NULL) STRICT; INSERT INTO users SELECT * FROM copies; INSERT INTO users SELECT * FROM copies WHERE user_no = 9; DROP TABLE copies; CREATE TABLE counts (user_no INTEGER NOT NULL, slips INTEGER NOT NULL) STRICT; INSERT INTO counts SELECT * FROM slip_counts; DROP TABLE slip_counts; CREATE TABLE slip_counts (user_no INTEGER NOT NULL, slips INTEGER NOT NULL) STRICT; INSERT INTO slip_counts SELECT * FROM counts; INSERT INTO slip_counts SELECT * FROM counts WHERE user_no = 9; DROP TABLE counts",
            DANGLING,
        )],
    );
}
