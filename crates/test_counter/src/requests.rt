//! Requests for reports, and the bytes of replies.

use crate::runtime::Runtime;

/// Tess asks for the statement of account 101.
pub const ASKS_STATEMENT: &[u8] =
    b"POST /do/statement HTTP/1.1\r\nHost: bank\r\nBank-Badge: tess\r\nBank-Session: 1\r\n\
    Content-Length: 36\r\n\r\n{\"account\":101,\"count\":10,\"start\":1}";

/// Sue asks for the proof of branch 1.
pub const ASKS_PROOF: &[u8] =
    b"POST /do/proof HTTP/1.1\r\nHost: bank\r\nBank-Badge: sue\r\nBank-Session: 1\r\n\
    Content-Length: 12\r\n\r\n{\"branch\":1}";

/// Olga asks for the listing of the policy.
pub const ASKS_LISTING: &[u8] =
    b"GET /policy HTTP/1.1\r\nHost: bank\r\nBank-Badge: olga\r\nBank-Session: 1\r\n\r\n";

/// The bytes of a reply of this status, whose body is of this type.
pub fn reply_bytes(rt: &impl Runtime, status: &str, kind: &str, body: &str) -> Vec<u8> {
    let length = body.len();
    let reply = format!(in rt.alloc();
        "HTTP/1.1 {status}\r\nContent-Type: {kind}\r\nContent-Length: {length}\r\n\r\n{body}"
    );
    reply.expect(rt, "memory").into_bytes()
}
