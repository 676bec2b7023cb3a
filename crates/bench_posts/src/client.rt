//! Who sends the messages, and when.

use bench_bank::USER;
use counter_api::{Clock, Gate};

/// An authenticator by which every badge is that of the bank's one user.
#[derive(Clone, Copy, Debug, PartialEq, Eq)]
pub struct OneUser;

impl Gate for OneUser {
    ghost use Rattle.std.specs.Prelude.{Some};

    ghost users = { λ _ _. Some 1 };

    fn user_of(&self, _badge: &[u8]) -> Option<u32> {
        Some(USER)
    }
}

/// A clock at which all is done at moment 0.
#[derive(Clone, Copy, Debug, PartialEq, Eq)]
pub struct AtZero;

impl Clock for AtZero {
    ghost use Rattle.std.specs.Prelude.{◌≡◌};

    ghost may_give = { λ _ moment _. moment ≡ 0 };

    fn moment(&mut self) -> u64 {
        0
    }
}
