//! An operation as it is asked for, with the slip that it takes and the signature that its rows bear.

ghost use Rattle.std.specs.Prelude.{◌≡◌};
ghost use Rattle.bank_meaning.specs.Executions.{signature_of};
ghost use Rattle.bank_meaning.specs.Slips.{slip_named};

use crate::who::Who;
use bank_books::Signature;
use counter_ops::Op;

/// An operation that is asked for: by whom, and when. What else may be asked for is a `Request`.
#[derive(Clone, Copy, Debug, PartialEq, Eq)]
pub struct Execution {
    /// Who asks.
    pub who: Who,
    /// The moment that it bears, in seconds, 0 to 99,999,999,999.
    pub moment: u64,
    /// What is asked for.
    pub op: Op,
}

impl Execution {
    /// The number of the slip that it is asked for with; 0 is none.
    pub fn slip(&self) -> u32
        ensures { result ≡ slip_named self.now }
    {
        if self.op.procedure().takes_slip() {
            self.who.slip
        } else {
            0
        }
    }

    /// What the rows that it adds bear: its user, 0 where the authenticator names none, and its moment.
    pub fn signature(&self) -> Signature
        ensures { result ≡ signature_of self.now }
    {
        Signature {
            user: self.who.user.unwrap_or(0),
            moment: self.moment,
        }
    }
}
