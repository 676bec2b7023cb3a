//! When a time that a client may take is over, on a clock that is set.
use crate::clocks::ScriptedClock;
use counter_limits::{MAX_WAIT, end_after, has_time};
use std::test::Fail;
use std::time::{Duration, Instant};

#[test]
fn time_is_over_at_its_end(rt: HostRuntime) -> Result<(), Fail> {
    let readings = [
        Some(Duration::from_secs(1_000)),
        Some(Duration::from_nanos(1_029_999_999_999)),
        Some(Duration::from_secs(1_030)),
    ];
    let machine = ScriptedClock::new(&readings);
    let end = Some(end_after(Instant::now(&machine)?, MAX_WAIT));
    let before = Instant::now(&machine).ok();
    let then = Instant::now(&machine).ok();
    assert!(rt; has_time(end, before));
    assert!(rt; !has_time(end, then));
    // A time without an end is over, and one that no clock shows, too.
    assert!(rt; !has_time(None, before));
    assert!(rt; !has_time(end, Instant::now(&machine).ok()));
    Ok(())
}

#[test]
fn time_past_the_end_of_the_clock_is_over_at_once(rt: HostRuntime) -> Result<(), Fail> {
    let readings = [Some(Duration::from_secs(9_223_372_036_854_775_807))];
    let machine = ScriptedClock::new(&readings);
    let now = Instant::now(&machine)?;
    assert!(rt; end_after(now, MAX_WAIT) == now);
    assert!(rt; !has_time(Some(now), Some(now)));
    Ok(())
}
