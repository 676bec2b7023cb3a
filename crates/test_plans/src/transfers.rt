//! Transfers over synthetic rows: which numbers are left, and the order of their rules.

use crate::rows::{BY_TESS, LEDGER, MOST, TWO_ENTRIES, account_with, teller_of, teller_with};
use bank_terms::Rule;
use counter_ops::Transfer;
use postings::{TransferRows, rule_against_transfer};
use rule_tests::Ledger;
use std::process::Abort;

/// A transfer at teller 11, who is Tess's.
const AT_TELLER_11: Transfer = Transfer {
    source: 101,
    target: 102,
    teller: 11,
    branch: 1,
    amount: 100,
};

/// The rows of a transfer between accounts that have 1.00. `counts` are turns of each, and entries.
fn counted_rows(rt: &impl Abort, counts: [u64; 3]) -> TransferRows {
    let [source, target, entries] = counts;
    TransferRows {
        source: Some(account_with(rt, 101, 100, source)),
        target: Some(account_with(rt, 102, 100, target)),
        teller: Some(teller_with(rt, 0)),
        ledger: Some(Ledger { entries, ..LEDGER }),
    }
}

/// Asks for this first rule against the transfer at teller 11.
fn first_is(rt: &impl Abort, rows: &TransferRows, rule: Option<Rule>) {
    let first = rule_against_transfer(rows, &AT_TELLER_11, BY_TESS);
    assert!(rt; first == rule);
}

#[test]
fn a_transfer_needs_two_entry_numbers(rt: HostRuntime) {
    for (counts, first) in TWO_ENTRIES {
        first_is(&rt, &counted_rows(&rt, counts), first);
    }
}

/// Rows against which every rule speaks, and which are mended one after another.
#[test]
fn rules_of_a_transfer_stand_in_order(rt: HostRuntime) {
    let mut rows = TransferRows {
        source: Some(account_with(&rt, 101, 99, 0)),
        target: None,
        teller: Some(teller_of(&rt, 2, 0)),
        ledger: Some(Ledger {
            entries: 999_999_999,
            ..LEDGER
        }),
    };
    first_is(&rt, &rows, Some(Rule::Unknown));
    rows.target = Some(account_with(&rt, 102, MOST, 0));
    first_is(&rt, &rows, Some(Rule::Branch));
    rows.teller = Some(teller_of(&rt, 1, 0));
    first_is(&rt, &rows, Some(Rule::Drawer));
    rows.teller = Some(teller_with(&rt, 0));
    first_is(&rt, &rows, Some(Rule::Floor));
    rows.source = Some(account_with(&rt, 101, 100, 0));
    first_is(&rt, &rows, Some(Rule::Range));
    rows.target = Some(account_with(&rt, 102, MOST - 100, 0));
    first_is(&rt, &rows, Some(Rule::Full));
    rows.ledger = Some(LEDGER);
    first_is(&rt, &rows, None);
}
