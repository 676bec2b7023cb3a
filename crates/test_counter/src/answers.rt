//! The sample bank, and what a bank answers to messages.

use crate::runtime::Runtime;
use crate::shared::Shared;
use crate::sinks::{Sink, whole_sink};
use counter_api::{Asking, Counter, ServeFault, Served, serve};
use counter_clocks::{Fixed, Moment};
use money::Tallied;
use sample_bank::sample_world;
use sample_service::SampleBadges;
use store_rows::{Bank, ListStore, Store};

/// The sample bank in lists.
pub fn listed_bank(rt: &impl Runtime) -> Bank<ListStore> {
    let world = sample_world(rt.alloc()).expect(rt, "memory");
    Bank {
        store: ListStore::new(world),
    }
}

/// What came of a run.
#[derive(Drop)]
pub struct Answer {
    /// How it ended.
    pub end: Result<Served, ServeFault>,
    /// What was written.
    pub bytes: Vec<u8>,
    /// How many calls of the writer failed.
    pub failures: u64,
}

/// Serves these messages over a bank, at moment 700.
pub fn answer<S: Store>(
    rt: &impl Runtime,
    bank: &mut Bank<S>,
    input: &[u8],
    writer: Tallied<Sink>,
) -> Answer {
    answer_at(rt, bank, 700, input, writer)
}

/// Serves these messages over a bank, at that moment.
fn answer_at<S: Store>(
    rt: &impl Runtime,
    bank: &mut Bank<S>,
    moment: u64,
    input: &[u8],
    mut writer: Tallied<Sink>,
) -> Answer {
    let moment = Moment::new(moment).expect(rt, "a moment");
    let shared = Shared {
        store: &mut bank.store,
    };
    let asking = Asking {
        gate: SampleBadges,
        moments: Fixed { moment },
    };
    let end = match Counter::new(rt.alloc(), shared, asking) {
        Ok(mut counter) => serve(&mut counter, &mut Tallied::new(input), &mut writer, 10),
        Err(_) => Err(ServeFault::Memory),
    };
    Answer {
        end,
        failures: writer.failures(),
        bytes: writer.into_inner().bytes,
    }
}

/// The reply to a message at moment 700, to a writer that is not broken.
pub fn reply<S: Store>(rt: &impl Runtime, bank: &mut Bank<S>, message: &[u8]) -> Vec<u8> {
    reply_at(rt, bank, 700, message)
}

/// The reply to a message at that moment, to a writer that is not broken.
pub fn reply_at<S: Store>(
    rt: &impl Runtime,
    bank: &mut Bank<S>,
    moment: u64,
    message: &[u8],
) -> Vec<u8> {
    let answer = answer_at(rt, bank, moment, message, whole_sink(rt));
    assert!(rt; answer.end == Ok(Served { messages: 1 }) && answer.failures == 0);
    answer.bytes
}
