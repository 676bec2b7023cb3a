//! A run over a bank in lists.

use counter_api::{Asking, Counter, ServeFault, Served, serve};
use counter_clocks::{Fixed, Moment};
use money::Tallied;
use sample_service::SampleBadges;
use std::io::{Read, Write};
use store_rows::{Bank, ListStore};
use test_counter::{Runtime, Shared};

/// More messages than any stream of these tests has.
const MOST: u32 = 1_000;

/// Serves a stream over a bank, at moment 700.
pub fn run<R: Read, W: Write>(
    rt: &impl Runtime,
    bank: &mut Bank<ListStore>,
    reader: &mut Tallied<R>,
    writer: &mut Tallied<W>,
) -> Result<Served, ServeFault> {
    let moment = Moment::new(700).expect(rt, "a moment");
    let shared = Shared {
        store: &mut bank.store,
    };
    let asking = Asking {
        gate: SampleBadges,
        moments: Fixed { moment },
    };
    match Counter::new(rt.alloc(), shared, asking) {
        Ok(mut counter) => serve(&mut counter, reader, writer, MOST),
        Err(_) => Err(ServeFault::Memory),
    }
}

/// How a run ends that answers n messages.
pub fn served(n: usize) -> Result<Served, ServeFault> {
    Ok(Served { messages: n as u32 })
}
