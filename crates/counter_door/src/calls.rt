//! The calls of a stream so far, which proofs alone read.

ghost use Rattle.std.specs.Prelude.{◌≡◌};
ghost use Rattle.std.specs.Io.{ReadsAtMost, WritesAtMost};
ghost use base.Fml.{ftrue};
ghost use Rattle.counter_door.specs.Past.{Past, no_past, past_code};

use std::io;
use std::io::ErrorKind;
use std::marker::Model;

/// What the calls of a stream so far came to. It takes no memory, and its functions do nothing.
#[derive(Drop)]
pub(crate) struct Calls {
    ghost past: { Past } by { past_code },
}

impl Model for Calls {
    ghost also_owns = { λ _. ftrue };
}

/// One call of a stream.
#[derive(Clone, Copy, Drop)]
pub(crate) enum Call<'a> {
    /// A read gave these bytes.
    Read(&'a [u8]),
    /// A read answered that nothing more is at hand.
    UsedUp,
    /// A read showed that no more comes: it gave nothing, as its client has ended, or failed.
    Ended,
    /// A write took these bytes.
    Wrote(&'a [u8]),
    /// A write answered that no more is taken.
    Full,
    /// A write took nothing, for another reason.
    NotWritten,
}

impl Calls {
    ghost use Rattle.counter_door.specs.Calls.{IsAfterRead, IsAfterWrite, after_call};

    /// None yet.
    #[inline(always)]
    pub(crate) fn new() -> Calls
        ensures { result.past ≡ no_past }
    {
        Calls {}
    }

    /// The same, and one more.
    #[inline(always)]
    pub(crate) fn and(&self, _call: &Call<'_>) -> Calls
        ensures { result.past ≡ after_call self.now.past _call.now }
    {
        Calls {}
    }

    /// The same, and a read into this room, which ended so.
    #[inline(always)]
    pub(crate) fn and_read(&self, done: &io::Result<usize>, buf: &[u8]) -> Calls
        requires { ReadsAtMost done.now buf.now }
        ensures { IsAfterRead self.now.past result.past done.now buf.now }
    {
        match done {
            Ok(n) => {
                if *n == 0 && !buf.is_empty() {
                    return self.and(&Call::Ended);
                }
                self.and(&Call::Read(&buf[..*n]))
            }
            Err(e) => {
                if e.kind() == ErrorKind::WouldBlock {
                    return self.and(&Call::UsedUp);
                }
                self.and(&Call::Ended)
            }
        }
    }

    /// The same, and a write of these bytes, which ended so.
    #[inline(always)]
    pub(crate) fn and_write(&self, done: &io::Result<usize>, buf: &[u8]) -> Calls
        requires { WritesAtMost done.now buf.now }
        ensures { IsAfterWrite self.now.past result.past done.now buf.now }
    {
        match done {
            Ok(n) => {
                if *n == 0 && !buf.is_empty() {
                    return self.and(&Call::NotWritten);
                }
                self.and(&Call::Wrote(&buf[..*n]))
            }
            Err(e) => {
                if e.kind() == ErrorKind::WouldBlock {
                    return self.and(&Call::Full);
                }
                self.and(&Call::NotWritten)
            }
        }
    }
}
