//! Requests, and the replies that are due to them.

use store_rows::{Bank, Store};
use test_counter::{Answer, Runtime, answer, reply_bytes, whole_sink};

/// A reply that is due: its status, and its body.
pub type Due = (&'static str, &'static str);

/// What is asked for, in session 1, and the reply to it.
#[derive(Clone, Copy, Debug)]
pub struct Exchange {
    /// The slip that it bears.
    pub slip: Option<u32>,
    /// The badge of who asks, the release that they name, the path, and the body.
    pub asked: (&'static str, Option<u32>, &'static str, &'static str),
    /// The reply that is due.
    pub due: Due,
}

/// Tess posts 25.00 to account 101.
const POSTED: Exchange = Exchange {
    slip: None,
    asked: (
        "tess",
        None,
        "/do/post",
        r#"{"account":101,"branch":1,"delta":2500,"teller":11}"#,
    ),
    due: ("200 OK", r#"{"balance":52500,"branch":1,"entry":1}"#),
};

/// That post, and the balance after it.
pub const POST: [Exchange; 2] = [
    POSTED,
    Exchange {
        slip: None,
        asked: ("tess", None, "/do/balance", r#"{"account":101}"#),
        due: ("200 OK", r#"{"balance":52500}"#),
    },
];

/// That post, and the release by which Sue lets Tess post -5.00 to account 101.
pub const WORKED: [Exchange; 2] = [
    POSTED,
    Exchange {
        slip: None,
        asked: (
            "sue",
            None,
            "/do/release",
            r#"{"beneficiary":7,"operation":{"account":101,"branch":1,"delta":-500,"procedure":"post","teller":11}}"#,
        ),
        due: ("200 OK", r#"{"beneficiary":7,"release":1}"#),
    },
];

/// A transfer by Tom.
pub const TRANSFER: [Exchange; 1] = [Exchange {
    slip: None,
    asked: (
        "tom",
        None,
        "/do/transfer",
        r#"{"amount":20000,"branch":1,"source":101,"target":102,"teller":12}"#,
    ),
    due: (
        "200 OK",
        r#"{"branch":1,"first":1,"second":2,"source":30000,"target":20000}"#,
    ),
}];

/// A post above the limit of Tom.
const ABOVE: &str = r#"{"account":101,"branch":1,"delta":60000,"teller":12}"#;

/// That post, the release that Sue gives Tom for it, the post again, and once more.
pub const RELEASED: [Exchange; 4] = [
    Exchange {
        slip: None,
        asked: ("tom", None, "/do/post", ABOVE),
        due: ("403 Forbidden", r#"{"name":"limit","rule":4}"#),
    },
    Exchange {
        slip: None,
        asked: (
            "sue",
            None,
            "/do/release",
            r#"{"beneficiary":8,"operation":{"account":101,"branch":1,"delta":60000,"procedure":"post","teller":12}}"#,
        ),
        due: ("200 OK", r#"{"beneficiary":8,"release":1}"#),
    },
    Exchange {
        slip: None,
        asked: ("tom", Some(1), "/do/post", ABOVE),
        due: ("200 OK", r#"{"balance":110000,"branch":1,"entry":1}"#),
    },
    Exchange {
        slip: None,
        asked: ("tom", Some(1), "/do/post", ABOVE),
        due: ("403 Forbidden", r#"{"name":"release","rule":5}"#),
    },
];

/// A post, a transfer, a release and the post that uses it up, and a drawer that is put off, each with a slip of who asks.
/// Slips of several users have one number.
pub const SLIPPED: [Exchange; 5] = [
    Exchange {
        slip: Some(1),
        ..POSTED
    },
    Exchange {
        slip: Some(1),
        asked: (
            "tom",
            None,
            "/do/transfer",
            r#"{"amount":20000,"branch":1,"source":101,"target":102,"teller":12}"#,
        ),
        due: (
            "200 OK",
            r#"{"branch":1,"first":2,"second":3,"source":32500,"target":20000}"#,
        ),
    },
    Exchange {
        slip: Some(1),
        asked: (
            "sue",
            None,
            "/do/release",
            r#"{"beneficiary":8,"operation":{"account":101,"branch":1,"delta":60000,"procedure":"post","teller":12}}"#,
        ),
        due: ("200 OK", r#"{"beneficiary":8,"release":1}"#),
    },
    Exchange {
        slip: Some(2),
        asked: ("tom", Some(1), "/do/post", ABOVE),
        due: ("200 OK", r#"{"balance":92500,"branch":1,"entry":4}"#),
    },
    Exchange {
        slip: Some(2),
        asked: (
            "tess",
            None,
            "/do/drawer-off",
            r#"{"branch":1,"counted":42500,"teller":11}"#,
        ),
        due: ("200 OK", r#"{"difference":0,"teller":11,"vault":97500}"#),
    },
];

/// A drawer is put off, the day can not be closed, the other drawer is put off, the day is closed.
pub const CLOSING: [Exchange; 4] = [
    Exchange {
        slip: None,
        asked: (
            "tom",
            None,
            "/do/drawer-off",
            r#"{"branch":1,"counted":4900,"teller":12}"#,
        ),
        due: ("200 OK", r#"{"difference":-100,"teller":12,"vault":59900}"#),
    },
    Exchange {
        slip: None,
        asked: ("sue", None, "/do/close-day", r#"{"branch":1}"#),
        due: ("409 Conflict", r#"{"name":"day","rule":15}"#),
    },
    Exchange {
        slip: None,
        asked: (
            "tess",
            None,
            "/do/drawer-off",
            r#"{"branch":1,"counted":40000,"teller":11}"#,
        ),
        due: ("200 OK", r#"{"difference":0,"teller":11,"vault":99900}"#),
    },
    Exchange {
        slip: None,
        asked: ("sue", None, "/do/close-day", r#"{"branch":1}"#),
        due: (
            "200 OK",
            r#"{"balance":60000,"cash":99900,"closed":1,"entries":0}"#,
        ),
    },
];

/// The denial of a user who has no open session of that number.
const UNKNOWN: Due = ("403 Forbidden", r#"{"name":"identity","rule":1}"#);

/// Olga suspends Tess, who may then ask for nothing, and restores her.
pub const COMMANDS: [Exchange; 3] = [
    Exchange {
        slip: None,
        asked: ("olga", None, "/policy/suspend", r#"{"user":7}"#),
        due: ("200 OK", r#"{"done":"suspend"}"#),
    },
    Exchange {
        slip: None,
        asked: ("tess", None, "/do/balance", r#"{"account":101}"#),
        due: UNKNOWN,
    },
    Exchange {
        slip: None,
        asked: ("olga", None, "/policy/restore", r#"{"user":7}"#),
        due: ("200 OK", r#"{"done":"restore"}"#),
    },
];

/// Tess opens her next session, and asks in the one before it.
pub const OPENING: [Exchange; 2] = [
    Exchange {
        slip: None,
        asked: ("tess", None, "/session", ""),
        due: ("200 OK", r#"{"session":2}"#),
    },
    Exchange {
        slip: None,
        asked: ("tess", None, "/do/balance", r#"{"account":101}"#),
        due: UNKNOWN,
    },
];

/// Tess ends her session, and asks in it.
pub const ENDING: [Exchange; 2] = [
    Exchange {
        slip: None,
        asked: ("tess", None, "/end", ""),
        due: ("200 OK", r#"{"ended":1}"#),
    },
    Exchange {
        slip: None,
        asked: ("tess", None, "/do/balance", r#"{"account":101}"#),
        due: UNKNOWN,
    },
];

/// The reply to a request at which the disk failed.
pub const FAILED: Due = ("503 Service Unavailable", r#"{"fault":"F3"}"#);

/// The reply to each later request.
pub const STOPPED: Due = ("503 Service Unavailable", r#"{"fault":"F4"}"#);

/// The field of a number with its line end, or nothing where there is none.
fn field(rt: &impl Runtime, name: &str, number: Option<u32>) -> String {
    match number {
        Some(number) => format!(in rt.alloc(); "{name}: {number}\r\n").expect(rt, "memory"),
        None => String::new(rt.alloc()),
    }
}

/// The bytes of a request.
fn request_of(rt: &impl Runtime, exchange: &Exchange) -> String {
    let (badge, release, path, body) = exchange.asked;
    let named = field(rt, "Bank-Release", release);
    let slip = field(rt, "Bank-Slip", exchange.slip);
    let length = body.len();
    let request = format!(in rt.alloc();
        "POST {path} HTTP/1.1\r\nHost: bank\r\nBank-Badge: {badge}\r\nBank-Session: 1\r\n{named}{slip}Content-Length: {length}\r\n\r\n{body}"
    );
    request.expect(rt, "memory")
}

/// Whether these bytes are that reply.
pub fn is_reply(rt: &impl Runtime, bytes: &[u8], due: Due) -> bool {
    let (status, body) = due;
    bytes == reply_bytes(rt, status, "application/json", body).as_slice()
}

/// Has a bank answer a message, on a connection of its own.
pub fn run<S: Store>(rt: &impl Runtime, bank: &mut Bank<S>, message: &[u8]) -> Answer {
    answer(rt, bank, message, whole_sink(rt))
}

/// The reply of a bank to a request, on a connection of its own.
pub fn reply<S: Store>(rt: &impl Runtime, bank: &mut Bank<S>, exchange: &Exchange) -> Vec<u8> {
    let request = request_of(rt, exchange);
    let run = run(rt, bank, request.as_bytes());
    assert!(rt; run.end.is_ok());
    run.bytes
}
