//! A user who has as many slips as one may have.

use crate::exchange::{Exchange, FIRST, another_post, done, post};
use crate::stores::{is_out_of_range, over_each};

/// What denies a new slip of a user who has 100,000.
const FULL: &str = r#"{"name":"full","rule":16}"#;

/// Tess posts to an account that she may not post to.
fn post_elsewhere() -> Exchange {
    let body = r#"{"account":999,"branch":1,"delta":2500,"teller":11}"#;
    let reply = r#"{"name":"no triple","rule":3}"#;
    done("tess", "/do/post", body, reply).denied()
}

/// Tom posts 1.00 to account 101.
fn post_by_tom() -> Exchange {
    let body = r#"{"account":101,"branch":1,"delta":100,"teller":12}"#;
    let reply = r#"{"balance":55100,"branch":1,"entry":3}"#;
    done("tom", "/do/post", body, reply)
}

/// Tess has 99,999 slips and takes one more. What she sent is answered again, and what bears no slip is made; only the
/// next slip is one too many, and any other rule comes before that.
#[test]
fn a_user_may_have_100_000_slips(rt: HostRuntime) {
    over_each(
        &rt,
        99_999,
        &[
            post(FIRST).with_slip(100_000),
            post(FULL).with_slip(100_001).refused(),
            post(FULL).with_slip(100_001).refused(),
            post(FIRST).with_slip(100_000),
            post(r#"{"kept":1}"#).with_slip(1),
            post(r#"{"kept":50000}"#).with_slip(50_000),
            post(r#"{"kept":99999}"#).with_slip(99_999),
            another_post().with_slip(50_000),
            post_elsewhere().with_slip(100_001),
            post(r#"{"balance":55000,"branch":1,"entry":2}"#),
            post_by_tom().with_slip(100_001),
        ],
    );
}

#[test]
fn a_bank_of_more_slips_is_out_of_range(rt: HostRuntime) {
    is_out_of_range(&rt, 100_001);
}
