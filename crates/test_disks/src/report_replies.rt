//! Reports that are asked for over a bank whose disk may fail, and how their replies end.

use crate::streams::{FAILED, STOPPED, is_reply, run};
use counter_api::{ServeFault, Served};
use std::process::Abort;
use store_rows::{Bank, Store};
use test_counter::Runtime;

/// A report that is asked for.
#[derive(Clone, Copy, Debug)]
pub struct Asked<'a> {
    /// Its message.
    pub message: &'static [u8],
    /// Its whole reply.
    pub reply: &'a [u8],
}

/// How the reply to a report ended.
#[derive(Clone, Copy, Debug, PartialEq, Eq)]
pub enum Ending {
    /// All of it was written.
    Whole,
    /// It is the fault of the disk, which failed before the head.
    Refused,
    /// It broke after the head.
    Broken,
}

/// How many lines of a reply stand before those of the rows: those of the head, and the first of the text.
const LINES_BEFORE_ROWS: usize = 5;

/// Asks that a reply broke after one of its lines.
fn is_broken(rt: &impl Abort, bytes: &[u8], due: &[u8]) {
    let lines = bytes.iter().filter(|byte| **byte == b'\n').count();
    assert!(rt; lines >= LINES_BEFORE_ROWS && bytes.ends_with(b"\n"));
    assert!(rt; due.starts_with(bytes) && bytes.len() < due.len());
}

/// Asks for a report. Where it was not answered whole, the disk has failed, and the bank is stopped.
pub fn reported<S: Store>(rt: &impl Runtime, bank: &mut Bank<S>, asked: Asked<'_>) -> Ending {
    let first = run(rt, bank, asked.message);
    let ending = if first.bytes.as_slice() == asked.reply {
        assert!(rt; first.end == Ok(Served { messages: 1 }));
        return Ending::Whole;
    } else if first.end.is_ok() {
        assert!(rt; is_reply(rt, first.bytes.as_slice(), FAILED));
        Ending::Refused
    } else {
        assert!(rt; first.end == Err(ServeFault::Report));
        is_broken(rt, first.bytes.as_slice(), asked.reply);
        Ending::Broken
    };
    let next = run(rt, bank, asked.message);
    assert!(rt; next.end.is_ok() && is_reply(rt, next.bytes.as_slice(), STOPPED));
    ending
}
