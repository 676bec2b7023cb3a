//! The sample as it is when a report is asked for.

use crate::questions::Question;
use store_rows::ListStore;
use test_counter::{Runtime, listed_bank, reply};

/// The sample in lists, as it is when a report is asked for.
pub fn asked_of(rt: &impl Runtime, question: &Question) -> ListStore {
    let mut bank = listed_bank(rt);
    if !question.before.is_empty() {
        let _ = reply(rt, &mut bank, question.before);
    }
    bank.store
}
