//! A listener, how many connections it failed to accept, and how many calls of the others failed.

ghost use Rattle.std.specs.Prelude.{◌≡◌, OnOk, OnErr};
ghost use Rattle.money.specs.Counted.{counted_once_more};
ghost use Rattle.counter_connections.specs.Failed.{failed_at, none_failed};

use crate::calls::CallFailures;
use std::io;
use std::net::{TcpListener, TcpStream};

/// How many connections a listener could not accept, and how many reads and writes failed of those that it accepted. Only a
/// listener makes these.
#[derive(Clone, Copy, Debug, PartialEq, Eq)]
pub struct Failures {
    accepts: u64,
    calls: CallFailures,
}

impl Failures {
    /// How many connections could not be accepted. The count stays at the greatest `u64`.
    pub fn accepts(&self) -> u64
        ensures { result ≡ self.now.accepts }
    {
        self.accepts
    }

    /// How many reads and writes failed of the connections that were accepted and have ended.
    pub fn calls(&self) -> CallFailures
        ensures { result ≡ self.now.calls }
    {
        self.calls
    }
}

/// A listener, and what failed at it so far.
#[derive(Drop)]
pub struct CountedListener {
    listener: TcpListener,
    failures: u64,
    pub(crate) calls: CallFailures,
}

impl CountedListener {
    /// The listener, which could accept each connection so far, and of which no call failed.
    pub fn new(listener: TcpListener) -> CountedListener
        ensures { failed_at result ≡ none_failed }
    {
        CountedListener {
            listener,
            failures: 0,
            calls: CallFailures::none(),
        }
    }

    /// What failed so far.
    pub fn failures(&self) -> Failures
        ensures { result ≡ failed_at self.now }
    {
        Failures {
            accepts: self.failures,
            calls: self.calls,
        }
    }

    /// The next connection. It waits for one.
    pub(crate) fn accept(&mut self) -> io::Result<TcpStream>
        ensures ok { OnOk result (self.new.failures ≡ self.old.failures) }
        ensures err { OnErr result (self.new.failures ≡ counted_once_more self.old.failures) }
        ensures calls { self.new.calls ≡ self.old.calls }
    {
        match self.listener.accept() {
            Ok((stream, _)) => Ok(stream),
            Err(error) => {
                self.failures = self.failures.saturating_add(1);
                Err(error)
            }
        }
    }
}
