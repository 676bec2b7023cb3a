//! What a message is answered, but for a report: a status, a content type and a body.

ghost use Rattle.std.specs.Prelude.{◌≡◌, IfOk};
ghost use Rattle.counter_api.specs.Fault.{fault_text};
ghost use Rattle.bank_meaning.specs.Meaning.{json};
ghost use Rattle.counter_api.specs.Response.{body_bytes, done_parts, denied_parts, refused_parts, faulted_parts};

use decide::{ReplyKind, Rule, denial_text};
use http::StatusCode;
use http_heads::MessageFault;
use money::Fault;
use std::alloc::{AllocError, Global};
use std::marker::Model;

/// The body of a reply.
#[derive(Drop)]
enum Body {
    /// A text that was formed.
    Text(Vec<u8>),
    /// A text that takes no memory.
    Fixed(&'static [u8]),
}

impl Body {
    /// Its bytes.
    fn bytes(&self) -> &[u8]
        ensures { result.now ≡ body_bytes self.now }
    {
        match self {
            Body::Text(text) => text.as_slice(),
            Body::Fixed(text) => text,
        }
    }
}

/// What a message is answered: a status, and a body of a kind.
#[derive(Drop)]
pub(crate) struct Response {
    status: StatusCode,
    kind: ReplyKind,
    body: Body,
}

impl Model for Response {
    ghost use Rattle.counter_api.specs.Response.{ResponseParts, body_bytes};
    ghost use Rattle.bank_meaning.specs.Meaning.{content_type_of};

    ghost Value = { ResponseParts };

    ghost view = { λ response. record { status = response.status; content_type = content_type_of response.kind; body = body_bytes response.body } };
}

impl Response {
    /// To a request that was carried out and is answered in JSON.
    pub(crate) fn done(body: Vec<u8>) -> Response
        ensures { result ≡ done_parts (json body.items) }
    {
        Response {
            status: StatusCode::OK,
            kind: ReplyKind::Json,
            body: Body::Text(body),
        }
    }

    /// To a request that a rule denies.
    pub(crate) fn denied(alloc: Global, rule: Rule) -> Result<Response, AllocError>
        ensures { IfOk result (λ response. response ≡ denied_parts rule) }
    {
        let status = if rule.is_forbidden() {
            StatusCode::FORBIDDEN
        } else {
            StatusCode::CONFLICT
        };
        Ok(Response {
            status,
            kind: ReplyKind::Json,
            body: Body::Text(denial_text(alloc, rule)?),
        })
    }

    /// To a message that asks for nothing that is served, or not in the form that it has to have.
    pub(crate) fn refused(fault: MessageFault) -> Response
        ensures { result ≡ refused_parts fault }
    {
        Response {
            status: fault.status(),
            kind: ReplyKind::Json,
            body: Body::Fixed(fault.text()),
        }
    }

    /// To a request that a fault kept from being made. It takes no memory.
    pub(crate) fn faulted(fault: Fault) -> Response
        ensures { result ≡ faulted_parts fault }
    {
        Response {
            status: StatusCode::SERVICE_UNAVAILABLE,
            kind: ReplyKind::Json,
            body: Body::Fixed(fault_text(fault)),
        }
    }

    /// Its status.
    pub(crate) fn status(&self) -> StatusCode
        ensures { result ≡ self.now.status }
    {
        self.status
    }

    /// The type of its content.
    pub(crate) fn content_type(&self) -> &'static str
        ensures { result.now ≡ self.now.content_type }
    {
        self.kind.content_type()
    }

    /// The bytes of its body.
    pub(crate) fn body(&self) -> &[u8]
        ensures { result.now ≡ self.now.body }
    {
        self.body.bytes()
    }
}

/// The text that names a fault.
fn fault_text(fault: Fault) -> &'static [u8]
    ensures { result.now ≡ fault_text fault }
{
    match fault {
        Fault::Memory => b"{\"fault\":\"F1\"}",
        Fault::Size => b"{\"fault\":\"F2\"}",
        Fault::Disk => b"{\"fault\":\"F3\"}",
        Fault::Stopped => b"{\"fault\":\"F4\"}",
    }
}
