//! The end of a time that a client may take, by the machine's running clock.

ghost use Rattle.std.specs.Prelude.{◌≡◌, ◌+◌, ◌*◌, option_map};
ghost use Rattle.std.specs.Time.{FitsClock, instant_nanos};
ghost use Rattle.counter_limits.specs.Limits.{has_time};

use std::time::{Duration, Instant};

/// The instant n seconds from now. If the clock does not go so far, that is now.
pub fn end_after(now: Instant, seconds: u64) -> Instant
    ensures { FitsClock (instant_nanos now + seconds * 1_000_000_000)
        → instant_nanos result ≡ instant_nanos now + seconds * 1_000_000_000 }
{
    match now.checked_add(Duration::from_secs(seconds)) {
        Some(end) => end,
        None => now,
    }
}

/// Whether there is time left before the end, by what the clock reads.
pub fn has_time(end: Option<Instant>, now: Option<Instant>) -> bool
    ensures { result ≡ has_time (option_map instant_nanos end) (option_map instant_nanos now) }
{
    match (end, now) {
        (Some(end), Some(now)) => now.checked_duration_since(end).is_none(),
        _ => false,
    }
}
