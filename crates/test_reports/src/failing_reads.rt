//! Reports whose length is computed, and that are written, over a store that fails at each read: which fault is returned.

use crate::counter::asked_of;
use crate::failing::{Cause, Failing};
use crate::questions::{QUESTIONS, Question, first_lines};
use reports::{Report, ReportFault, counted};
use store_rows::{Bank, StoreState};
use test_counter::{Runtime, whole_sink};

/// How often a store is read while the length of a report is computed.
fn reads_counting(rt: &impl Runtime, question: &Question) -> u64 {
    let mut store = Failing::calm(asked_of(rt, question));
    let (first, most) = (question.contents.first, question.contents.most);
    assert!(rt; counted(rt.alloc(), &mut store, first, most) == Ok(question.contents));
    store.watch().reads()
}

/// Has a read fail while the length of a report is computed.
fn fails_counting(rt: &impl Runtime, question: &Question, read: u64, cause: Cause) {
    let mut store = Failing::over(asked_of(rt, question), read, cause);
    let (first, most) = (question.contents.first, question.contents.most);
    let given = counted(rt.alloc(), &mut store, first, most);
    assert!(rt; given == Err(cause.fault()), "at {read}");
    assert!(rt;
        store.watch().reads() == read && store.faults() == 1,
        "at {read}"
    );
}

/// Has a read fail while a report is written. The lines of the rows before it were written.
fn fails_writing(rt: &impl Runtime, question: &Question, read: u64, cause: Cause) {
    let mut bank = Bank {
        store: Failing::over(asked_of(rt, question), read, cause),
    };
    let mut writer = whole_sink(rt);
    let end = Report::new(rt.alloc(), &mut bank, question.contents).write(&mut writer);
    assert!(rt; end == Err(ReportFault::Store(cause.fault())), "at {read}");
    assert!(rt; writer.failures() == 0, "at {read}");
    let due = first_lines(question.text.as_bytes(), read);
    assert!(rt; writer.into_inner().bytes.as_slice() == due, "at {read}");
    assert!(rt;
        bank.store.watch().reads() == read && bank.store.faults() == 1,
        "at {read}"
    );
}

#[test]
fn faults_are_reported_while_a_report_is_counted(rt: HostRuntime) {
    for question in &QUESTIONS {
        for read in 1..=reads_counting(&rt, question) {
            for cause in [Cause::Memory, Cause::Disk] {
                fails_counting(&rt, question, read, cause);
            }
        }
    }
}

#[test]
fn faults_are_reported_while_a_report_is_written(rt: HostRuntime) {
    for question in &QUESTIONS {
        for read in 1..=question.rows {
            for cause in [Cause::Memory, Cause::Disk] {
                fails_writing(&rt, question, read, cause);
            }
        }
    }
}
