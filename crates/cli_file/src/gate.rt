//! Which user sends a message, by the badge that it bears.

use counter_api::Gate;
use list_opening::Badges;

/// Knows the users of a list of badges.
#[derive(Clone, Copy)]
pub struct BadgeGate<'a>(pub &'a Badges);

impl<'a> Gate for BadgeGate<'a> {
    ghost use Rattle.list_opening.specs.Badges.{user_of};

    ghost users = { λ gate badge. user_of gate.0.now badge };

    fn user_of(&self, badge: &[u8]) -> Option<u32> {
        self.0.user_of(badge)
    }
}
