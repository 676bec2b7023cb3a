//! Sessions that are opened and ended.

use bank_books::RowWrite;
use bank_policy::Session;
use decide::{Rule, Who, begin, end};
use sample_bank::sample_world;
use std::alloc::Global;
use std::process::Abort;
use store_rows::{Bank, ListStore, Store};

/// Tess, in a session of this number.
fn tess(session: u32) -> Who {
    Who {
        user: Some(7),
        session,
        release: 0,
        slip: 0,
    }
}

/// A bank in lists, at which sessions are opened and ended.
#[derive(Drop)]
struct Door {
    bank: Bank<ListStore>,
    alloc: Global,
}

impl Door {
    /// That of the sample bank.
    fn of_sample(rt: &impl Abort, alloc: Global) -> Door {
        let store = ListStore::new(sample_world(alloc).expect(rt, "memory"));
        Door {
            bank: Bank { store },
            alloc,
        }
    }

    /// Has the row of the session of a user written.
    fn write(&mut self, rt: &impl Abort, session: Session) {
        let plan = vec![in self.alloc; RowWrite::Session(session)];
        let applied = self.bank.store.apply(self.alloc, plan.expect(rt, "memory"));
        applied.expect(rt, "no fault");
    }

    /// An opening that has to be replied with this body.
    fn opens(&mut self, rt: &impl Abort, user: u32, body: &str) {
        let given = begin(&mut self.bank, self.alloc, Some(user));
        replied(rt, given.expect(rt, "no fault"), body);
    }

    /// An opening that has to be denied by this rule.
    fn stays_shut(&mut self, rt: &impl Abort, user: Option<u32>, rule: Rule) {
        let given = begin(&mut self.bank, self.alloc, user);
        assert!(rt; given.expect(rt, "no fault") == Err(rule));
    }

    /// An ending that has to be replied with this body.
    fn ends(&mut self, rt: &impl Abort, who: Who, body: &str) {
        let given = end(&mut self.bank, self.alloc, who);
        replied(rt, given.expect(rt, "no fault"), body);
    }
}

/// Asks for a reply of this body.
fn replied(rt: &impl Abort, given: Result<Vec<u8>, Rule>, body: &str) {
    match given {
        Ok(given) => assert!(rt; given.as_slice() == body.as_bytes(), "{body}"),
        Err(rule) => panic!(rt; "{}", rule.name()),
    }
}

#[test]
fn sessions_are_opened_for_users_alone(rt: HostRuntime) {
    let mut door = Door::of_sample(&rt, rt.alloc());
    door.stays_shut(&rt, None, Rule::Identity);
    door.stays_shut(&rt, Some(55), Rule::Identity);
}

/// The last number there is can be given, and none after it.
#[test]
fn sessions_end_with_their_last_number(rt: HostRuntime) {
    let mut door = Door::of_sample(&rt, rt.alloc());
    let before_last = Session {
        user: 7,
        session: 999_999_998,
        on: true,
    };
    door.write(&rt, before_last);
    door.opens(&rt, 7, r#"{"session":999999999}"#);
    door.stays_shut(&rt, Some(7), Rule::Full);
    door.ends(&rt, tess(999_999_999), r#"{"ended":999999999}"#);
    door.stays_shut(&rt, Some(7), Rule::Full);
}

/// A session of four digits is ended as any other.
#[test]
fn the_session_after_999_others_is_opened_and_ended(rt: HostRuntime) {
    let mut door = Door::of_sample(&rt, rt.alloc());
    let before = Session {
        user: 7,
        session: 999,
        on: true,
    };
    door.write(&rt, before);
    door.opens(&rt, 7, r#"{"session":1000}"#);
    door.ends(&rt, tess(1_000), r#"{"ended":1000}"#);
    door.opens(&rt, 7, r#"{"session":1001}"#);
}
