//! Which user of the sample bank a badge belongs to.

use counter_service::Gate;
use sample_bank::badge_user;

/// Knows the six users of the sample bank by their badges.
#[derive(Clone, Copy, Debug, PartialEq, Eq)]
pub struct SampleBadges;

impl Gate for SampleBadges {
    ghost use Rattle.sample_bank.specs.Badges.{badge_user};

    ghost users = { λ _ badge. badge_user badge };

    fn user_of(&self, badge: &[u8]) -> Option<u32> {
        badge_user(badge)
    }
}
