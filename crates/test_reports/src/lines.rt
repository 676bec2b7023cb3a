//! The lines of reports, each made of its row.

use crate::counter::asked_of;
use crate::questions::{OF_ACCOUNTS, OF_LISTING, OF_PROOF, OF_STATEMENT};
use crate::texts::{ACCOUNTS, EMPTY_STATEMENT, LISTING, PROOF, STATEMENT};
use bank_policy::{Name, User};
use report_lines::{
    Line, Total, account_line, accounts_heading, entry_line, policy_heading, policy_line,
    proof_heading, statement_heading, teller_line, total_line,
};
use std::process::Abort;
use store_rows::{BookReads, ListStore, ReportReads};
use test_counter::Runtime;
use world_reads::PolicyRow;

/// Adds a line to a text.
fn add(rt: &impl Abort, text: &mut Vec<u8>, line: &Line) {
    assert!(rt; text.extend_from_slice(line.as_slice()).is_ok());
}

#[test]
fn the_texts_are_as_long_as_their_lines(rt: HostRuntime) {
    assert!(rt; ACCOUNTS.len() == 107);
    assert!(rt; EMPTY_STATEMENT.len() == 55);
    assert!(rt; STATEMENT.len() == 131);
    assert!(rt; PROOF.len() == 435);
    assert!(rt; LISTING.len() == 4_109);
}

#[test]
fn lines_of_a_statement(rt: HostRuntime) {
    let mut store = asked_of(&rt, &OF_STATEMENT);
    let entry = store.entry_at(rt.alloc(), 101, 1).expect(&rt, "no fault");
    let mut text = Vec::new(rt.alloc());
    add(&rt, &mut text, &statement_heading(101, 1, 1));
    add(&rt, &mut text, &entry_line(&entry.expect(&rt, "an entry")));
    assert!(rt; text.as_slice() == STATEMENT.as_bytes());
    assert!(rt; statement_heading(102, 1, 0).as_slice() == EMPTY_STATEMENT.as_bytes());
}

/// Adds the line of an account.
fn add_account(rt: &impl Runtime, text: &mut Vec<u8>, store: &mut ListStore, account: u32) {
    let row = store.account(rt.alloc(), account).expect(rt, "no fault");
    add(rt, text, &account_line(&row.expect(rt, "an account")));
}

#[test]
fn lines_of_accounts(rt: HostRuntime) {
    let mut store = asked_of(&rt, &OF_ACCOUNTS);
    let mut text = Vec::new(rt.alloc());
    add(&rt, &mut text, &accounts_heading(0, 2));
    add_account(&rt, &mut text, &mut store, 101);
    add_account(&rt, &mut text, &mut store, 102);
    assert!(rt; text.as_slice() == ACCOUNTS.as_bytes());
}

/// Adds the line of a teller.
fn add_teller(rt: &impl Runtime, text: &mut Vec<u8>, store: &mut ListStore, teller: u32) {
    let row = store.teller(rt.alloc(), teller).expect(rt, "no fault");
    add(rt, text, &teller_line(&row.expect(rt, "a teller")));
}

/// Adds the lines of the totals, where they come to these amounts.
fn add_totals(rt: &impl Abort, text: &mut Vec<u8>, amounts: [i128; 9]) {
    let mut next = Some(Total::Tellers);
    for amount in amounts {
        let total = next.expect(rt, "a total");
        let line = total_line(total, amount);
        assert!(rt; line.as_slice().starts_with(total.label()));
        add(rt, text, &line);
        next = total.next();
    }
    assert!(rt; next.is_none());
}

#[test]
fn lines_of_a_proof(rt: HostRuntime) {
    let mut store = asked_of(&rt, &OF_PROOF);
    let mut text = Vec::new(rt.alloc());
    add(&rt, &mut text, &proof_heading(1, 1));
    add_teller(&rt, &mut text, &mut store, 11);
    add_teller(&rt, &mut text, &mut store, 12);
    add_totals(
        &rt,
        &mut text,
        [60_000, 60_000, 0, 60_000, 55_000, 45_000, 100_000, 0, 0],
    );
    assert!(rt; text.as_slice() == PROOF.as_bytes());
}

#[test]
fn lines_of_the_policy(rt: HostRuntime) {
    let mut store = asked_of(&rt, &OF_LISTING);
    let mut text = Vec::new(rt.alloc());
    add(&rt, &mut text, &policy_heading(96));
    for row in &store.policy_rows(rt.alloc()).expect(&rt, "no fault") {
        add(&rt, &mut text, &policy_line(row).expect(&rt, "a line"));
    }
    assert!(rt; text.as_slice() == LISTING.as_bytes());
}

/// The line of a user whose name has `len` bytes.
fn line_of_name(rt: &impl Runtime, len: usize) -> Option<Line> {
    let name = "x".repeat(rt.alloc(), len).expect(rt, "memory");
    policy_line(&PolicyRow::User(User {
        user: 4,
        name: Name::new(rt.alloc(), name.as_str()).expect(rt, "memory"),
        officer: false,
        suspended: true,
        session: 0,
        on: false,
    }))
}

/// A name of 20 bytes fills its place, a longer one stands whole, and a line has no room for one of 161 bytes.
#[test]
fn names_that_fill_a_line(rt: HostRuntime) {
    let line = line_of_name(&rt, 20).expect(&rt, "a line");
    assert!(rt; line.as_slice() == b"USER    4 -S xxxxxxxxxxxxxxxxxxxx\n".as_slice());
    let line = line_of_name(&rt, 160).expect(&rt, "a line");
    assert!(rt; line.len() == 174 && line.as_slice().ends_with(b"x\n"));
    assert!(rt; line_of_name(&rt, 161).is_none());
}
