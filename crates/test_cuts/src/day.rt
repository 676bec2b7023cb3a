//! A day at the sample's counter, and messages whose reply ends the connection.

use test_counter::{Runtime, listed_bank, reply};

/// The messages of the day, in their order: badge, session, slip 5 or 0 for none, method, path and body.
const DAY: [&str; 37] = [
    r#"tess 1 0 POST /do/accounts {"after":0,"count":10}"#,
    r#"sue 1 0 POST /do/proof {"branch":1}"#,
    r#"tess 1 0 POST /do/post {"account":101,"branch":1,"delta":2500,"teller":11}"#,
    r#"tess 1 0 POST /do/statement {"account":101,"count":10,"start":1}"#,
    r#"tom 1 0 POST /do/transfer {"amount":20000,"branch":1,"source":101,"target":102,"teller":12}"#,
    r#"tess 1 0 POST /do/balance {"account":101}"#,
    r#"tess 1 0 POST /do/correct {"account":101,"branch":1,"delta":2500,"entry":1,"other":0,"teller":11}"#,
    r#"tess 1 0 POST /do/move-cash {"amount":5000,"branch":1,"source":11,"target":12}"#,
    r#"tess 1 0 POST /do/drawer-off {"branch":1,"counted":37500,"teller":11}"#,
    r#"tess 1 0 POST /do/drawer-on {"branch":1,"cash":30000,"teller":11}"#,
    r#"sue 1 0 POST /do/new-account {"account":103,"branch":1,"floor":0}"#,
    r#"sue 1 0 POST /do/release {"beneficiary":8,"operation":{"account":101,"branch":1,"delta":60000,"procedure":"post","teller":12}}"#,
    r#"sue 1 0 POST /do/close-day {"branch":1}"#,
    r#"tom 1 0 POST /do/balance {"account":101}"#,
    r#"tom 1 0 POST /do/post {"account":101,"branch":1,"delta":60000,"teller":12}"#,
    r#"tess 9 0 POST /do/balance {"account":101}"#,
    "tess 1 0 GET /policy",
    r#"tess 1 0 POST /do/nothing {"account":101}"#,
    r#"tess 1 0 POST /do/balance {"account":"101"}"#,
    r#"carl 1 0 POST /policy/define-set {"members":[[1,101,101]],"set":6}"#,
    r#"carl 1 0 POST /policy/certify {"procedure":"correct","set":6}"#,
    r#"carl 1 0 POST /policy/grant {"limit":0,"procedure":"balance","set":2,"user":9}"#,
    r#"carl 1 0 POST /policy/revoke {"procedure":"balance","set":2,"user":9}"#,
    r#"carl 1 0 POST /policy/grant {"first":0,"last":699,"limit":0,"procedure":"balance","set":2,"user":9}"#,
    r#"carl 1 0 POST /policy/revoke {"procedure":"balance","set":2,"user":9}"#,
    r#"carl 1 0 POST /policy/withdraw {"procedure":"correct","set":6}"#,
    r#"olga 1 0 POST /policy/enrol {"name":"Ann","officer":false,"user":10}"#,
    r#"olga 1 0 POST /policy/appoint {"procedure":"balance","user":10}"#,
    r#"olga 1 0 POST /policy/dismiss {"procedure":"balance","user":10}"#,
    r#"olga 1 0 POST /policy/suspend {"user":10}"#,
    r#"olga 1 0 POST /policy/restore {"user":10}"#,
    r#"tess 1 5 POST /do/post {"account":101,"branch":1,"delta":2500,"teller":11}"#,
    r#"tess 1 5 POST /do/post {"account":101,"branch":1,"delta":2500,"teller":11}"#,
    r#"tess 1 5 POST /do/post {"account":101,"branch":1,"delta":2501,"teller":11}"#,
    r#"tess 1 0 HEAD /do/post {"account":101,"branch":1,"delta":2500,"teller":11}"#,
    "sue 1 0 POST /end",
    "sue 1 0 POST /session",
];

/// How many of these are carried out.
const DONE: usize = 27;

/// Messages after which the connection ends. The fault of one shows at its last byte, if it has one.
const ENDINGS: [&[u8]; 7] = [
    // no head
    b"hello\r\n",
    // no Host
    b"POST /session HTTP/1.1\r\nBank-Badge: tess\r\n\r\n",
    // two lengths that agree
    b"POST /session HTTP/1.1\r\nHost: bank\r\nContent-Length: 0\r\nContent-Length: 0\r\n\r\n",
    // a body that is too long
    b"POST /do/post HTTP/1.1\r\nHost: bank\r\nContent-Length: 1025\r\n\r\n",
    // an encoding
    b"POST /do/post HTTP/1.1\r\nHost: bank\r\nTransfer-Encoding: chunked\r\n\r\n",
    // HTTP/1.0
    b"POST /session HTTP/1.0\r\nBank-Badge: tess\r\n\r\n",
    // its own wish
    b"POST /session HTTP/1.1\r\nHost: bank\r\nBank-Badge: tess\r\nConnection: close\r\n\r\n",
];

/// What follows such a message, and is not looked at on its connection: Tess opens a session.
const NEXT: &[u8] = b"POST /session HTTP/1.1\r\nHost: bank\r\nBank-Badge: tess\r\n\r\n";

/// The bytes of a stream of messages, and those of the replies that each gets on a connection of its own, one after another.
#[derive(Drop)]
pub struct Stream {
    /// The messages.
    pub input: Vec<u8>,
    /// Where each message ends.
    pub ends: Vec<usize>,
    /// The replies.
    pub replies: Vec<u8>,
    /// Where the reply to each message ends.
    pub reply_ends: Vec<usize>,
    /// How many of the messages are answered on one connection.
    pub answered: usize,
    /// How many bytes a read gives at most, where reads fail.
    pub sizes: [usize; 2],
}

/// The bytes of a message of the day.
fn message_of(rt: &impl Runtime, text: &str) -> String {
    let mut words = text.split(' ');
    let badge = words.next().unwrap_or("");
    let session = words.next().unwrap_or("");
    let slip = match words.next().unwrap_or("") {
        "0" => "",
        _ => "Bank-Slip: 5\r\n",
    };
    let method = words.next().unwrap_or("");
    let path = words.next().unwrap_or("");
    let body = words.next().unwrap_or("");
    let length = body.len();
    let message = format!(in rt.alloc();
        "{method} {path} HTTP/1.1\r\nHost: bank\r\nBank-Badge: {badge}\r\nBank-Session: {session}\r\n{slip}Content-Length: {length}\r\n\r\n{body}"
    );
    message.expect(rt, "memory")
}

/// No message yet; of those that are added, the first n are answered on one connection.
fn empty(rt: &impl Runtime, n: usize, sizes: [usize; 2]) -> Stream {
    let alloc = rt.alloc();
    Stream {
        input: Vec::new(alloc),
        ends: Vec::new(alloc),
        replies: Vec::new(alloc),
        reply_ends: Vec::new(alloc),
        answered: n,
        sizes,
    }
}

/// The day. Of its reads some end inside a message, and some hold several.
fn day(rt: &impl Runtime) -> Stream {
    let mut stream = empty(rt, DAY.len(), [61, 333]);
    let mut bank = listed_bank(rt);
    let mut done = 0usize;
    for text in DAY.iter() {
        let message = message_of(rt, text);
        let reply = reply(rt, &mut bank, message.as_bytes());
        done = done.saturating_add(usize::from(reply.starts_with(b"HTTP/1.1 200 OK\r\n")));
        stream.add(rt, message.as_bytes(), &reply);
    }
    assert!(rt; done == DONE, "{done}");
    stream
}

/// The day, and each message after which the connection ends, with one that follows.
pub fn streams(rt: &impl Runtime) -> Vec<Stream> {
    let mut streams = Vec::new(rt.alloc());
    streams.push(day(rt)).expect(rt, "memory");
    for ending in ENDINGS.iter() {
        let mut stream = empty(rt, 1, [1, 7]);
        let mut bank = listed_bank(rt);
        for message in [*ending, NEXT] {
            let reply = reply(rt, &mut bank, message);
            stream.add(rt, message, &reply);
        }
        streams.push(stream).expect(rt, "memory");
    }
    streams
}

impl Stream {
    /// Adds a message, and the reply to it.
    fn add(&mut self, rt: &impl Runtime, message: &[u8], reply: &[u8]) {
        self.input.extend_from_slice(message).expect(rt, "memory");
        self.replies.extend_from_slice(reply).expect(rt, "memory");
        self.ends.push(self.input.len()).expect(rt, "memory");
        let end = self.replies.len();
        self.reply_ends.push(end).expect(rt, "memory");
    }

    /// How many messages are whole in the first n bytes.
    pub fn whole(&self, n: usize) -> usize {
        self.ends.iter().filter(|end| **end <= n).count()
    }

    /// Where the message after the first n begins.
    pub fn begin_of(&self, n: usize) -> usize {
        begin(&self.ends, n)
    }

    /// The replies to the messages after the first n, up to this number.
    pub fn replies(&self, n: usize, number: usize) -> &[u8] {
        &self.replies[begin(&self.reply_ends, n)..begin(&self.reply_ends, number)]
    }
}

/// Where the piece after the first n begins.
fn begin(ends: &[usize], n: usize) -> usize {
    if n == 0 { 0 } else { ends[n - 1] }
}
