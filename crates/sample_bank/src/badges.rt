//! The badges of the sample bank's six users.

ghost use Rattle.std.specs.Prelude.{◌≡◌};
ghost use Rattle.sample_bank.specs.Badges.{badge_user};

/// The user of a badge of the sample bank, or none where no one has this badge. Badges are compared byte for byte.
pub fn badge_user(badge: &[u8]) -> Option<u32>
    ensures { result ≡ badge_user badge.now }
{
    match badge {
        b"olga" => Some(1),
        b"carl" => Some(2),
        b"cora" => Some(3),
        b"tess" => Some(7),
        b"tom" => Some(8),
        b"sue" => Some(9),
        _ => None,
    }
}
