//! Bytes that are line ends alone, as may come before a head or at the end of a stream.

ghost use Rattle.std.specs.Prelude.{◌≡◌, ◌≢◌, ◌↔◌, ◌++◌, ℕ, List, IsTrue, IsNone, IfSome};
ghost use Rattle.httparse.specs.Grammar.{LineEnd, print_end, print_blank};

/// What follows a line end, LF or CR LF, where the bytes begin with one.
fn strip_line_end(bytes: &[u8]) -> Option<&[u8]>
    ensures some { IfSome result (λ rest. (end : LineEnd) × (bytes.now ≡ print_end end ++ rest.now)) }
    ensures none { IsNone result → (end : LineEnd) (rest : List ℕ) → bytes.now ≢ print_end end ++ rest }
{
    match bytes.strip_prefix(b"\n".as_slice()) {
        Some(rest) => Some(rest),
        None => bytes.strip_prefix(b"\r\n".as_slice()),
    }
}

/// Whether the bytes are line ends alone, each LF or CR LF.
pub fn are_line_ends(bytes: &[u8]) -> bool
    ensures { IsTrue result ↔ ((ends : List LineEnd) × (bytes.now ≡ print_blank ends)) }
{
    let mut rest = bytes;
    while let Some(following) = strip_line_end(rest) {
        rest = following;
    }
    rest.is_empty()
}
