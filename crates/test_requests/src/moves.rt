//! Cash moved from the vault to a drawer: what stays in range.

use crate::asking::{Desk, TESS};
use crate::forms::moved;
use crate::opening::with_a_full_drawer;
use decide::Rule;

#[test]
fn the_drawer_that_takes_stays_in_range(rt: HostRuntime) {
    let alloc = rt.alloc();
    let mut desk = Desk::over(alloc, with_a_full_drawer(&rt, alloc));
    desk.denied(&rt, TESS, moved(0, 11, 10), Rule::Range);
    let body = r#"{"moved":9,"source":100,"target":999999999999}"#;
    desk.done(&rt, TESS, moved(0, 11, 9), body);
}
