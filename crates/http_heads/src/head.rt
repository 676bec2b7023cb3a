//! A head that was read: the parts that its reply depends on, the length of its body, and its fault.

ghost use Rattle.std.specs.Prelude.{◌≡◌, ◌+◌, ◌≤◌, min, option_map, Some, None, IfOk, IfErr};
ghost use Rattle.httparse.specs.Spans.{IsRequestAt, IsRequestWithin};
ghost use Rattle.httparse.specs.Grammar.{RequestHead};

use crate::fault::MessageFault;
use crate::fields::{Found, find_field};
use crate::framing::Framing;
use crate::length::parse_length;
use crate::words::lists_close;
use httparse::spans::{HeaderSpan, RequestSpans};
use std::marker::Model;

/// The most bytes that a body has.
pub const MAX_BODY_LEN: usize = 1024;

/// A head that was taken: the parts of it that a reply depends on.
#[derive(Drop)]
pub struct Head<'b> {
    bytes: &'b [u8],
    headers: &'b [HeaderSpan],
    method: &'b [u8],
    target: &'b [u8],
    minor: u8,
}

impl<'b> Model for Head<'b> {
    ghost use Rattle.std.specs.Prelude.{length, map, All};
    ghost use Rattle.httparse.specs.Spans.{IsHeaderWithin, header_bytes};
    ghost use Rattle.http_heads.specs.Parts.{HeadParts};

    ghost Value = { HeadParts };

    ghost view = { λ h. record {
      method = h.method.now;
      target = h.target.now;
      minor = h.minor;
      fields = map (header_bytes h.bytes.now) h.headers.now;
    } };

    ghost invariant = { λ h. All (IsHeaderWithin (length h.bytes.now)) h.headers.now };
}

impl<'b> Head<'b> {
    ghost use Rattle.http_heads.specs.Fields.{values_named};
    ghost use Rattle.http_heads.specs.Found.{IsFound};
    ghost use Rattle.http_heads.specs.Framing.{max_body_len, content_length, has_host, is_encoded, body_len, head_fault, asks_head, closes};
    ghost use Rattle.http_heads.specs.Parts.{parts_of};

    /// The head that the spans cover.
    pub fn new(bytes: &'b [u8], headers: &'b [HeaderSpan], spans: &RequestSpans) -> Head<'b>
        requires { IsRequestWithin bytes.now headers.now spans.now }
        ensures { (h : RequestHead) → IsRequestAt bytes.now headers.now spans.now h → result ≡ parts_of h }
    {
        Head {
            bytes,
            headers: &headers[..spans.headers],
            method: spans.method.of(bytes),
            target: spans.path.of(bytes),
            minor: spans.version,
        }
    }

    /// The method, such as `GET`.
    pub fn method(&self) -> &'b [u8]
        ensures { result.now ≡ self.now.method }
    {
        self.method
    }

    /// The request target, such as `/policy`.
    pub fn target(&self) -> &'b [u8]
        ensures { result.now ≡ self.now.target }
    {
        self.target
    }

    /// The value of the field with this name, without letter case.
    pub fn field(&self, name: &[u8]) -> Found<'b>
        ensures { IsFound (values_named name.now self.now.fields) result }
    {
        find_field(self.bytes, self.headers, name)
    }

    /// The length of the body, or the fault of the least number that the head has.
    pub fn body_len(&self) -> Result<usize, MessageFault>
        ensures ok { IfOk result (λ n. (n ≡ body_len self.now) × (head_fault self.now ≡ None)) }
        ensures most { IfOk result (λ n. n ≤ max_body_len) }
        ensures err { IfErr result (λ fault. head_fault self.now ≡ Some fault) }
    {
        if !self.has_host() {
            return Err(MessageFault::BadHead);
        }
        let Some(len) = self.content_length() else {
            return Err(MessageFault::BadHead);
        };
        if len > MAX_BODY_LEN {
            return Err(MessageFault::BodyTooLong);
        }
        if self.is_encoded() {
            return Err(MessageFault::TransferEncoding);
        }
        Ok(len)
    }

    /// Whether there is one Host field, or none in HTTP/1.0.
    fn has_host(&self) -> bool
        ensures { result ≡ has_host self.now }
    {
        match self.field(b"host") {
            Found::Missing => self.minor == 0,
            Found::One(_) => true,
            Found::Several => false,
        }
    }

    /// The length that the head states, or the least that is too long. It states none where there are two
    /// Content-Length fields, or one that is not one or more digits.
    fn content_length(&self) -> Option<usize>
        ensures { result ≡ option_map (λ n. min n (max_body_len + 1)) (content_length self.now) }
    {
        match self.field(b"content-length") {
            Found::Missing => Some(0),
            Found::One(value) => parse_length(value),
            Found::Several => None,
        }
    }

    /// Whether there is a Transfer-Encoding field.
    fn is_encoded(&self) -> bool
        ensures { result ≡ is_encoded self.now }
    {
        match self.field(b"transfer-encoding") {
            Found::Missing => false,
            Found::One(_) => true,
            Found::Several => true,
        }
    }

    /// Whether the connection ends after the reply: the head is of HTTP/1.0, or one of the elements of a Connection
    /// field is `close`.
    pub fn closes(&self) -> bool
        ensures { result ≡ closes self.now }
    {
        if self.minor == 0 {
            return true;
        }
        lists_close(self.bytes, self.headers)
    }

    /// What the reply owes to this head: whether the connection ends after it, and whether it has no body bytes.
    pub fn framing(&self) -> Framing
        ensures close { result.close ≡ closes self.now }
        ensures head_only { result.head_only ≡ asks_head self.now }
    {
        Framing {
            close: self.closes(),
            head_only: self.method == b"HEAD".as_slice(),
        }
    }
}
