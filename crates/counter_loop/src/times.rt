//! Since when a connection is waited for, and for how long nothing has moved on it.

ghost use Rattle.std.specs.Prelude.{◌≡◌, ◌⊎◌, ◌<◌, IsSome, None, Some, false, true};
ghost use Rattle.counter_loop.specs.Ends.{HasPassed, IsTooLate, batch_since};

use counter_limits::{MAX_LINGERING, MAX_WAIT, end_after, has_time};
use std::time::{Duration, Instant};

/// Bytes that a client is to take: since when, and how many are left. What is added while they wait is no part of them.
#[derive(Clone, Copy)]
struct Batch {
    since: Instant,
    left: usize,
}

/// Since when a connection is waited for, by what it is waited for.
#[derive(Clone, Copy)]
pub(crate) struct Times {
    /// For the rest of a message.
    message: Option<Instant>,
    /// For its client to take a batch of bytes.
    batch: Option<Batch>,
    /// For its client to end, as nothing more is written.
    lingering: Option<Instant>,
    /// For its client to do anything, which has no end.
    idle: Instant,
}

impl Times {
    /// Those of a connection that begins now.
    pub(crate) fn new(now: Instant) -> Times
        ensures { (result.message ≡ None) × (batch_since result ≡ None) }
    {
        Times {
            message: None,
            batch: None,
            lingering: None,
            idle: now,
        }
    }

    /// Whether nothing more is written.
    pub(crate) fn is_lingering(&self) -> bool {
        self.lingering.is_some()
    }

    /// The connection lingers from now on: nothing more is written, and what comes is read and let go.
    pub(crate) fn begin_linger(&mut self, now: Instant)
        ensures { (self.new.message ≡ self.old.message) × (batch_since self.new ≡ batch_since self.old) }
    {
        self.lingering = Some(now);
    }

    /// The client took some bytes, and some wait then. After a batch that was taken whole the bytes after it are the next batch, with a
    /// time of its own: a client that takes a byte now and then does not keep its connection by that.
    pub(crate) fn note_taken(&mut self, taken: usize, waiting: usize, now: Instant)
        ensures message { self.new.message ≡ self.old.message }
        ensures none { waiting ≡ 0 → batch_since self.new ≡ None }
        ensures some { 0 < waiting → IsSome (batch_since self.new) }
        ensures batch { (since : Instant) → batch_since self.new ≡ Some since → (batch_since self.old ≡ Some since) ⊎ (since ≡ now) }
    {
        if taken > 0 {
            self.idle = now;
        }
        if waiting == 0 {
            self.batch = None;
            return;
        }
        self.batch = match self.batch {
            Some(batch) if batch.left > taken => Some(Batch {
                since: batch.since,
                left: batch.left - taken,
            }),
            _ => Some(Batch {
                since: now,
                left: waiting,
            }),
        };
    }

    /// Turns were taken. A message is on its way from its first byte until it was answered. If turns were held back, its
    /// time begins anew.
    pub(crate) fn note_turns(&mut self, has_moved: bool, holds_part: bool, now: Instant)
        ensures batch { batch_since self.new ≡ batch_since self.old }
        ensures message { (since : Instant) → self.new.message ≡ Some since
            → (holds_part ≡ true) × (((has_moved ≡ false) × (self.old.message ≡ Some since)) ⊎ (since ≡ now)) }
    {
        if has_moved {
            self.idle = now;
        }
        if has_moved || !holds_part {
            self.message = None;
        }
        if holds_part && self.message.is_none() {
            self.idle = now;
            self.message = Some(now);
        }
    }

    /// Whether something takes too long. A message is not late while bytes wait to be taken.
    pub(crate) fn is_late(&self, now: Instant) -> bool
        ensures { result ≡ true → IsTooLate now self.now }
    {
        if let Some(batch) = self.batch {
            return has_passed(batch.since, MAX_WAIT, now);
        }
        match self.message {
            Some(since) => has_passed(since, MAX_WAIT, now),
            None => false,
        }
    }

    /// Whether it lingers too long.
    pub(crate) fn lingers_too_long(&self, now: Instant) -> bool {
        match self.lingering {
            Some(since) => has_passed(since, MAX_LINGERING, now),
            None => false,
        }
    }

    /// For how long nothing has moved.
    pub(crate) fn idle_for(&self, now: Instant) -> Duration {
        now.duration_since(self.idle)
    }
}

/// Whether this many seconds have passed since then.
fn has_passed(since: Instant, seconds: u64, now: Instant) -> bool
    ensures { result ≡ true → HasPassed seconds since now }
{
    !has_time(Some(end_after(since, seconds)), Some(now))
}
