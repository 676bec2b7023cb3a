//! Serving that is measured: how many messages were answered, and how long that took.

use crate::client::{AtZero, OneUser};
use counter_api::{Asking, Counter, serve};
use money::Tallied;
use std::fmt;
use std::io::BufWriter;
use std::time::{CpuClock, Duration, Instant};
use store_rows::Store;

/// The most messages that are answered.
const MOST_MESSAGES: u32 = 1_000_000;

/// How many messages were answered, and how long that took.
#[derive(Clone, Copy, Debug, PartialEq, Eq)]
pub struct Times {
    messages: u32,
    passed: Duration,
    worked: Duration,
}

impl fmt::Display for Times {
    fn fmt<W: fmt::Write>(&self, f: &mut fmt::Formatter<W>) -> fmt::Result {
        let messages = self.messages;
        let passed = self.passed.as_nanos();
        let worked = self.worked.as_nanos();
        write!(
            f,
            "{messages} messages, {passed} nanoseconds, of the processor {worked}"
        )
    }
}

/// Serves standard input to standard output over this store, whose replies are gathered as the bank program does. None where a
/// stream or memory fails, or the clock.
pub fn serve_timed<S: Store + Drop>(rt: &HostRuntime, store: S) -> Option<Times> {
    let asking = Asking {
        gate: OneUser,
        moments: AtZero,
    };
    let mut counter = Counter::new(rt.alloc(), store, asking).ok()?;
    let mut input = Tallied::new(rt.stdin());
    let mut output = Tallied::new(BufWriter::new(rt.alloc(), rt.stdout()).ok()?);
    let start = Instant::now(rt).ok()?;
    let before = rt.process_cpu_time().ok()?;
    let served = serve(&mut counter, &mut input, &mut output, MOST_MESSAGES).ok()?;
    let after = rt.process_cpu_time().ok()?;
    Some(Times {
        messages: served.messages,
        passed: start.elapsed(rt).ok()?,
        worked: after.saturating_sub(before),
    })
}
