//! The faults of messages, M1 to M6, each with the status and the body of the reply to it.

ghost use Rattle.std.specs.Prelude.{◌≡◌};
ghost use Rattle.http_heads.specs.Fault.{fault_status, fault_text};

use http::StatusCode;

/// Why a message is answered by none of what it asks for. The least number is answered.
#[derive(Clone, Copy, Debug, PartialEq, Eq)]
pub enum MessageFault {
    /// M1: bytes that begin no head, or a head whose Host or Content-Length fields are not in order.
    BadHead,
    /// M2: no head within the longest.
    HeadTooLong,
    /// M3: the head states a longer body than the longest.
    BodyTooLong,
    /// M4: the head has a Transfer-Encoding field.
    TransferEncoding,
    /// M5: the method and the path are none that are served.
    NoSuchRoute,
    /// M6: a field or the body is not of the form that the route asks for.
    BadContent,
}

impl MessageFault {
    /// The status of the reply.
    pub fn status(self) -> StatusCode
        ensures { result ≡ fault_status self }
    {
        match self {
            MessageFault::BadHead => StatusCode::BAD_REQUEST,
            MessageFault::HeadTooLong => StatusCode::REQUEST_HEADER_FIELDS_TOO_LARGE,
            MessageFault::BodyTooLong => StatusCode::PAYLOAD_TOO_LARGE,
            MessageFault::TransferEncoding => StatusCode::NOT_IMPLEMENTED,
            MessageFault::NoSuchRoute => StatusCode::NOT_FOUND,
            MessageFault::BadContent => StatusCode::UNPROCESSABLE_ENTITY,
        }
    }

    /// The body of the reply, in JSON.
    pub fn text(self) -> &'static [u8]
        ensures { result.now ≡ fault_text self }
    {
        match self {
            MessageFault::BadHead => b"{\"fault\":\"M1\"}",
            MessageFault::HeadTooLong => b"{\"fault\":\"M2\"}",
            MessageFault::BodyTooLong => b"{\"fault\":\"M3\"}",
            MessageFault::TransferEncoding => b"{\"fault\":\"M4\"}",
            MessageFault::NoSuchRoute => b"{\"fault\":\"M5\"}",
            MessageFault::BadContent => b"{\"fault\":\"M6\"}",
        }
    }
}
