//! How many calls failed of the streams of connections.

ghost use Rattle.std.specs.Prelude.{◌≡◌};
ghost use Rattle.money.specs.Counted.{counted_once_more, failure_count};
ghost use Rattle.counter_connections.specs.Failed.{no_call_failed};

use money::Tallied;

/// How many calls failed of the streams of connections.
#[derive(Clone, Copy, Debug, PartialEq, Eq)]
pub struct CallFailures {
    reads: u64,
    writes: u64,
}

impl CallFailures {
    /// None so far.
    pub fn none() -> CallFailures
        ensures { result ≡ no_call_failed }
    {
        CallFailures {
            reads: 0,
            writes: 0,
        }
    }

    /// How many reads failed.
    pub fn reads(&self) -> u64
        ensures { result ≡ self.now.reads }
    {
        self.reads
    }

    /// How many writes and flushes failed.
    pub fn writes(&self) -> u64
        ensures { result ≡ self.now.writes }
    {
        self.writes
    }

    /// These, and those of one connection more. Each count stays at the greatest `u64`.
    pub(crate) fn and_of<R, W>(self, reader: &Tallied<R>, writer: &Tallied<W>) -> CallFailures
        ensures no_read { failure_count reader.now ≡ 0 → result.reads ≡ self.reads }
        ensures one_read { failure_count reader.now ≡ 1 → result.reads ≡ counted_once_more self.reads }
        ensures no_write { failure_count writer.now ≡ 0 → result.writes ≡ self.writes }
        ensures one_write { failure_count writer.now ≡ 1 → result.writes ≡ counted_once_more self.writes }
    {
        CallFailures {
            reads: sum(self.reads, reader.failures()),
            writes: sum(self.writes, writer.failures()),
        }
    }
}

/// The sum of both, at most the greatest `u64`.
fn sum(count: u64, more: u64) -> u64
    ensures none { more ≡ 0 → result ≡ count }
    ensures one { more ≡ 1 → result ≡ counted_once_more count }
{
    count.saturating_add(more)
}
