//! A request that may bear a slip, and the reply that is due.

use store_rows::{Bank, Store};
use test_counter::{Runtime, reply_at, reply_bytes};

/// A request of a user, and its reply.
#[derive(Clone, Copy)]
pub(crate) struct Exchange {
    badge: &'static str,
    /// The path.
    asks: &'static str,
    /// The number of the slip that it bears; 0 is none.
    slip: u32,
    body: &'static str,
    status: &'static str,
    reply: &'static str,
}

/// A request that is done, at moment 700, in the first session of its user.
pub(crate) fn done(
    badge: &'static str,
    asks: &'static str,
    body: &'static str,
    reply: &'static str,
) -> Exchange {
    Exchange {
        badge,
        asks,
        slip: 0,
        body,
        status: "200 OK",
        reply,
    }
}

/// The reply to Tess's first post of 25.00 to account 101.
pub(crate) const FIRST: &str = r#"{"balance":52500,"branch":1,"entry":1}"#;

/// Tess posts 25.00 to account 101, and gets this reply.
pub(crate) fn post(reply: &'static str) -> Exchange {
    let body = r#"{"account":101,"branch":1,"delta":2500,"teller":11}"#;
    done("tess", "/do/post", body, reply)
}

/// Tess posts a cent more there, by a slip that she had for another operation, and is denied.
pub(crate) fn another_post() -> Exchange {
    let body = r#"{"account":101,"branch":1,"delta":2501,"teller":11}"#;
    done("tess", "/do/post", body, r#"{"name":"slip","rule":22}"#).refused()
}

impl Exchange {
    /// The same, bearing this slip.
    pub(crate) fn with_slip(self, slip: u32) -> Exchange {
        Exchange { slip, ..self }
    }

    /// The same, denied for who asks or for what they may.
    pub(crate) fn denied(self) -> Exchange {
        Exchange {
            status: "403 Forbidden",
            ..self
        }
    }

    /// The same, denied for how the bank stands.
    pub(crate) fn refused(self) -> Exchange {
        Exchange {
            status: "409 Conflict",
            ..self
        }
    }

    /// The bytes of the request.
    fn message(&self, rt: &impl Runtime) -> Vec<u8> {
        let Exchange {
            badge,
            asks,
            body,
            ..
        } = *self;
        let slip = match self.slip {
            0 => String::new(rt.alloc()),
            slip => format!(in rt.alloc(); "Bank-Slip: {slip}\r\n").expect(rt, "memory"),
        };
        let length = body.len();
        let message = format!(in rt.alloc();
            "POST {asks} HTTP/1.1\r\nHost: bank\r\nBank-Badge: {badge}\r\nBank-Session: 1\r\n{slip}Content-Length: {length}\r\n\r\n{body}"
        );
        message.expect(rt, "memory").into_bytes()
    }

    /// Sends the request to a bank and asks for the reply that is due.
    pub(crate) fn is_held<S: Store>(&self, rt: &impl Runtime, bank: &mut Bank<S>) {
        let due = reply_bytes(rt, self.status, "application/json", self.reply);
        let message = self.message(rt);
        let given = reply_at(rt, bank, 700, message.as_slice());
        assert!(rt;
            given == due,
            "{} with slip {}: {}",
            self.asks,
            self.slip,
            self.reply
        );
    }
}
