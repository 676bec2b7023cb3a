//! Who asks in the tests, and what their row says.

use bank_policy::Standing;
use decide::Who;

/// A user of the sample, in session 1.
pub(crate) fn user(number: u32) -> Who {
    Who {
        user: Some(number),
        session: 1,
        release: 0,
        slip: 0,
    }
}

/// What the row of a user says who has session 1 open.
pub(crate) fn standing(officer: bool) -> Standing {
    Standing {
        officer,
        suspended: false,
        session: 1,
        on: true,
    }
}
