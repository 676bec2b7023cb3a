//! Each number that is kept beside a row, wrong once.

use crate::refusals::{refused, refused_for};
use book_check::BooksFault;
use sql_adopt::AdoptFault;

/// The balances of the branch's tellers do not give its own.
const TELLERS: AdoptFault = AdoptFault::Books(BooksFault::ConditionB { branch: 1 });

/// The history of the branch does not give what is kept.
const HISTORY: AdoptFault = AdoptFault::Books(BooksFault::ConditionC { branch: 1 });

/// The cash book of the branch does not give what is kept.
const CASH: AdoptFault = AdoptFault::Books(BooksFault::Cash { branch: 1 });

#[test]
fn numbers_of_a_branch_are_compared(rt: HostRuntime) {
    refused(
        &rt,
        &[
            (
                "UPDATE branches SET balance = 62501 WHERE branch = 1",
                TELLERS,
            ),
            ("UPDATE branches SET vault = 55001 WHERE branch = 1", CASH),
            ("UPDATE branches SET entries = 2 WHERE branch = 1", HISTORY),
            ("UPDATE branches SET lines = 6 WHERE branch = 1", CASH),
            ("UPDATE branches SET accounts = 3 WHERE branch = 1", HISTORY),
            (
                "UPDATE branches SET history = 2499 WHERE branch = 1",
                HISTORY,
            ),
            ("UPDATE branches SET drawers = 47499 WHERE branch = 1", CASH),
            (
                "UPDATE branches SET cash_entries = 2501 WHERE branch = 1",
                CASH,
            ),
            ("UPDATE branches SET differences = 1 WHERE branch = 1", CASH),
        ],
    );
}

#[test]
fn numbers_of_a_teller_are_compared(rt: HostRuntime) {
    refused(
        &rt,
        &[
            (
                "UPDATE tellers SET balance = 62501 WHERE teller = 11",
                TELLERS,
            ),
            (
                "UPDATE tellers SET balance = 62499 WHERE teller = 11; UPDATE tellers SET balance = 1 WHERE teller = 12",
                HISTORY,
            ),
            ("UPDATE tellers SET cash = 42501 WHERE teller = 11", CASH),
            ("UPDATE tellers SET holder = 0 WHERE teller = 11", CASH),
        ],
    );
}

#[test]
fn numbers_of_an_account_an_entry_and_a_user_are_compared(rt: HostRuntime) {
    refused(
        &rt,
        &[
            (
                "UPDATE accounts SET balance = 52501 WHERE account = 101",
                HISTORY,
            ),
            ("UPDATE accounts SET turns = 2 WHERE account = 101", HISTORY),
            (
                "UPDATE entries SET balance_after = 52501 WHERE branch = 1 AND number = 1",
                HISTORY,
            ),
            (
                "UPDATE users SET releases = 2 WHERE user_no = 7",
                AdoptFault::Books(BooksFault::Range),
            ),
        ],
    );
}

/// How many slips each user has: a wrong number, a user without one, and one that is of no user.
#[test]
fn numbers_of_slips_are_compared(rt: HostRuntime) {
    refused_for(
        &rt,
        AdoptFault::Books(BooksFault::Range),
        &[
            "UPDATE slip_counts SET slips = 1 WHERE user_no = 7",
            "UPDATE slip_counts SET slips = -1 WHERE user_no = 7",
            "UPDATE slip_counts SET user_no = 10 WHERE user_no = 9",
            "DELETE FROM slip_counts WHERE user_no = 7",
            "DELETE FROM slip_counts WHERE user_no = 9",
            "DELETE FROM slip_counts",
            "INSERT INTO users VALUES (10, 'Zoe', 0, 0, 1, 1, 0)",
            "INSERT INTO slip_counts (user_no, slips) VALUES (10, 0)",
            "INSERT INTO slips VALUES (7, 5, 1, 101, 11, 1, 2500, 0, 0, 0, 0, x'7b7d')",
        ],
    );
}
