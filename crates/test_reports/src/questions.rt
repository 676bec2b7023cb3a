//! Reports that are asked for over the sample, and what is due.

use crate::texts::{ACCOUNTS, LISTING, PROOF, STATEMENT};
use reports::{AfterAccount, AfterTeller, BranchNumbers, Contents, FromTurn, Listing};

/// A report that is asked for.
#[derive(Clone, Copy, Debug)]
pub struct Question {
    /// What was sent before.
    pub before: &'static [u8],
    /// Its text.
    pub text: &'static str,
    /// What is computed of it before it is written.
    pub contents: Contents,
    /// How many rows are read after its head.
    pub rows: u64,
}

/// Tess posts 25.00 to account 101.
pub const POST: &[u8] =
    b"POST /do/post HTTP/1.1\r\nHost: bank\r\nBank-Badge: tess\r\nBank-Session: 1\r\n\
    Content-Length: 51\r\n\r\n{\"account\":101,\"branch\":1,\"delta\":2500,\"teller\":11}";

/// Branch 1 of the sample.
pub const BRANCH: BranchNumbers = BranchNumbers {
    branch: 1,
    day: 1,
    balance: 60_000,
    history: 0,
    opening: 60_000,
    vault: 55_000,
    drawers: 45_000,
    opening_cash: 100_000,
    cash_entries: 0,
    differences: 0,
};

/// Tess asks for the statement of account 101, after that post.
pub const OF_STATEMENT: Question = Question {
    before: POST,
    text: STATEMENT,
    contents: Contents {
        first: Listing::Statement(FromTurn {
            account: 101,
            turn: 1,
        }),
        most: 10,
        lines: 1,
        length: 131,
    },
    rows: 1,
};

/// Tess asks for her accounts.
pub const OF_ACCOUNTS: Question = Question {
    before: b"",
    text: ACCOUNTS,
    contents: Contents {
        first: Listing::Accounts(AfterAccount {
            user: 7,
            after: 0,
            moment: 700,
        }),
        most: 10,
        lines: 2,
        length: 107,
    },
    rows: 2,
};

/// Sue asks for the proof of branch 1. After the last teller it is read that there is no other.
pub const OF_PROOF: Question = Question {
    before: b"",
    text: PROOF,
    contents: Contents {
        first: Listing::Tellers(AfterTeller {
            branch: BRANCH,
            after: 0,
            tellers: 0,
        }),
        most: u32::MAX,
        lines: 11,
        length: 435,
    },
    rows: 3,
};

/// Olga asks for the listing of the policy.
pub const OF_LISTING: Question = Question {
    before: b"",
    text: LISTING,
    contents: Contents {
        first: Listing::Policy(None),
        most: u32::MAX,
        lines: 96,
        length: 4_109,
    },
    rows: 96,
};

/// Each of them.
pub const QUESTIONS: [Question; 4] = [OF_STATEMENT, OF_ACCOUNTS, OF_PROOF, OF_LISTING];

/// The first `count` lines of a text.
pub fn first_lines(text: &[u8], count: u64) -> &[u8] {
    let mut left = count;
    for (place, byte) in text.iter().enumerate() {
        if left == 0 {
            return text.split_at(place).0;
        }
        left = left.saturating_sub(u64::from(*byte == b'\n'));
    }
    text
}
