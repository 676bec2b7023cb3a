//! Rows of the books that are out of their limits, or name one that is not there.

use crate::refusals::{TAKEN, refused_after_sound_change, refused_for};
use book_check::BooksFault;
use sql_adopt::AdoptFault;

const RANGE: AdoptFault = AdoptFault::Books(BooksFault::Range);

#[test]
fn versions_of_the_policy_have_limits(rt: HostRuntime) {
    refused_for(
        &rt,
        RANGE,
        &[
            "UPDATE bank SET policy = -1",
            "UPDATE bank SET policy = 1000000000000",
        ],
    );
}

#[test]
fn rows_of_a_branch_have_limits(rt: HostRuntime) {
    refused_for(
        &rt,
        RANGE,
        &[
            "UPDATE branches SET day = 0 WHERE branch = 2",
            "UPDATE branches SET cash = -1 WHERE branch = 2",
            "UPDATE branches SET branch = 3 WHERE branch = 2",
            "UPDATE tellers SET branch = 3 WHERE teller = 12",
            "UPDATE tellers SET holder = 10000 WHERE teller = 11",
            "UPDATE accounts SET floor = 1 WHERE account = 201",
            "INSERT INTO proofs (branch, day, entries, balance, cash) VALUES (1, 1, 1, 62500, 55000)",
        ],
    );
}

#[test]
fn rows_of_the_history_have_limits(rt: HostRuntime) {
    refused_for(
        &rt,
        RANGE,
        &[
            "UPDATE entries SET delta = 1000000",
            "UPDATE entries SET moment = 100000000000",
            "UPDATE entries SET form = 4",
            "UPDATE entries SET user_no = 99",
            "UPDATE entries SET partner = 2",
            "UPDATE lines SET form = 6 WHERE number = 1",
            "UPDATE lines SET place = 21 WHERE number = 5",
        ],
    );
}

#[test]
fn rows_of_users_and_their_releases_have_limits(rt: HostRuntime) {
    refused_for(
        &rt,
        RANGE,
        &[
            "UPDATE users SET officer = 2 WHERE user_no = 1",
            "UPDATE users SET session = 1000000000 WHERE user_no = 7",
            "UPDATE releases SET giver = 99",
            "UPDATE releases SET number = 2",
            "UPDATE releases SET form = 9",
            "UPDATE releases SET form = 14",
            "UPDATE releases SET member5 = 1",
            "UPDATE releases SET used = 2",
        ],
    );
}

#[test]
fn rows_of_slips_have_limits(rt: HostRuntime) {
    refused_after_sound_change(
        &rt,
        TAKEN,
        RANGE,
        &[
            "UPDATE slips SET slip = 0",
            "UPDATE slips SET slip = 1000000000",
            "UPDATE slips SET form = 0",
            "UPDATE slips SET form = 14",
            "UPDATE slips SET form = 9, member2 = 0, member3 = 0, member4 = 0",
            "UPDATE slips SET member1 = 0",
            "UPDATE slips SET member4 = 1000000",
            "UPDATE slips SET member5 = 1",
            "UPDATE slips SET user_no = 8",
            "UPDATE slips SET user_no = 99; UPDATE slip_counts SET slips = 0",
            "UPDATE slip_counts SET slips = 0 WHERE user_no = 7",
            "UPDATE slip_counts SET slips = 2 WHERE user_no = 7",
            "DELETE FROM slips",
        ],
    );
}
