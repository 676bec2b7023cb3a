//! Requests by who asks.

use crate::asking::{Desk, TESS};
use crate::forms::balance;
use decide::{Rule, Who};

#[test]
fn who_asks_has_to_be_known(rt: HostRuntime) {
    let mut desk = Desk::of_sample(&rt, rt.alloc());
    let nobody = Who { user: None, ..TESS };
    desk.denied(&rt, nobody, balance(101), Rule::Identity);
    let stranger = Who {
        user: Some(55),
        ..TESS
    };
    desk.denied(&rt, stranger, balance(101), Rule::Identity);
    let of_another_session = Who { session: 2, ..TESS };
    desk.denied(&rt, of_another_session, balance(101), Rule::Identity);
}
