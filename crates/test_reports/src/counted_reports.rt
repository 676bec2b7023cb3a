//! Reports over the sample whose length is computed, and that are then written or given up.

use crate::counter::asked_of;
use crate::questions::{BRANCH, OF_ACCOUNTS, OF_PROOF, OF_STATEMENT, QUESTIONS, Question};
use money::Fault;
use reports::{
    AfterAccount, BranchNumbers, Contents, FromTurn, Listing, Report, ReportFault, counted,
};
use store_rows::{Bank, BookReads, ListStore};
use test_counter::{Broken, Runtime, sink};

/// What is computed of a listing of the sample.
fn counted_of(rt: &impl Runtime, first: Listing, most: u32) -> Result<Contents, Fault> {
    counted(rt.alloc(), &mut asked_of(rt, &OF_ACCOUNTS), first, most)
}

#[test]
fn lines_and_bytes_are_counted(rt: HostRuntime) {
    for question in &QUESTIONS {
        let due = question.contents;
        let given = counted(
            rt.alloc(),
            &mut asked_of(&rt, question),
            due.first,
            due.most,
        );
        assert!(rt; given == Ok(due), "{given:?}");
    }
}

/// An account without entries, as many as are asked for, none at all, and those above a number.
#[test]
fn lines_are_counted_up_to_the_most(rt: HostRuntime) {
    let accounts = |after| {
        Listing::Accounts(AfterAccount {
            user: 7,
            after,
            moment: 700,
        })
    };
    let statement = Listing::Statement(FromTurn {
        account: 102,
        turn: 1,
    });
    for (first, most, lines, length) in [
        (statement, 10, 0, 55),
        (accounts(0), 1, 1, 72),
        (accounts(0), 0, 0, 37),
        (accounts(101), 10, 1, 72),
        (accounts(102), 10, 0, 37),
        (Listing::Policy(None), 1, 1, 57),
    ] {
        let due = Contents {
            first,
            most,
            lines,
            length,
        };
        let given = counted_of(&rt, first, most);
        assert!(rt; given == Ok(due), "{given:?}");
    }
}

#[test]
fn numbers_of_a_branch(rt: HostRuntime) {
    let mut store = asked_of(&rt, &OF_PROOF);
    let branch = store.branch(rt.alloc(), 1).expect(&rt, "no fault");
    assert!(rt; BranchNumbers::of(&branch.expect(&rt, "branch 1")) == BRANCH);
}

/// Writes a report to a writer of this room, and asks for what comes of it and for what was written.
fn written(
    rt: &impl Runtime,
    bank: &mut Bank<ListStore>,
    contents: Contents,
    room: usize,
    broken: Broken,
) -> (Result<(), ReportFault>, Vec<u8>) {
    let mut writer = sink(rt, room, broken);
    let end = Report::new(rt.alloc(), bank, contents).write(&mut writer);
    assert!(rt; writer.failures() == u64::from(end.is_err()));
    (end, writer.into_inner().bytes)
}

/// A report is given up, then written to a writer that breaks after each byte, then written whole.
fn broken_after_each_byte(rt: &impl Runtime, question: &Question, broken: Broken) {
    let mut bank = Bank {
        store: asked_of(rt, question),
    };
    let (contents, due) = (question.contents, question.text.as_bytes());
    let report = Report::new(rt.alloc(), &mut bank, contents);
    assert!(rt; report.length() == due.len() as u64);
    report.release();
    for room in 0..due.len() {
        let (end, bytes) = written(rt, &mut bank, contents, room, broken);
        assert!(rt; end == Err(ReportFault::Write), "at {room}");
        assert!(rt; bytes.as_slice() == &due[..room], "at {room}");
    }
    let (end, bytes) = written(rt, &mut bank, contents, due.len(), broken);
    assert!(rt; end == Ok(()) && bytes.as_slice() == due);
}

#[test]
fn reports_are_written_up_to_where_the_writer_breaks(rt: HostRuntime) {
    for question in [OF_STATEMENT, OF_ACCOUNTS, OF_PROOF] {
        for broken in [Broken::Fails, Broken::TakesNone] {
            broken_after_each_byte(&rt, &question, broken);
        }
    }
}
