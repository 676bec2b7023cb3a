//! The list of badges, and the user of a badge.

ghost use Rattle.std.specs.Prelude.{◌≡◌, option_map, map};
ghost use Rattle.list_records.specs.Records.{IsReported};
ghost use Rattle.list_opening.specs.Badges.{badge_row, badges_of, user_of};
ghost use Rattle.list_opening.specs.BadgeRows.{rows_of};

use crate::rows::user_number;
use list_fields::is_badge;
use list_records::{Gather, RecordFault, gather, is_record};
use std::alloc::{AllocError, Global};
use std::marker::Model;

/// A badge and its user.
#[derive(Debug, Drop)]
struct Badge {
    badge: Vec<u8>,
    user: u32,
}

/// The users of a list of badges. No badge stands twice.
#[derive(Debug, Drop)]
pub struct Badges {
    badges: Vec<Badge>,
}

impl Model for Badges {
    ghost use Rattle.std.specs.Prelude.{ℕ, List};

    ghost Value = { List (List ℕ × ℕ) };

    ghost use Rattle.list_opening.specs.BadgeRows.{rows_of};

    ghost view = { λ b. rows_of b.badges.items };
}

impl Badges {
    ghost use Rattle.std.specs.Prelude.{◌≡◌, []};
    ghost use Rattle.list_opening.specs.Badges.{user_of};

    /// No badges.
    fn new(alloc: Global) -> Badges
        ensures { result ≡ [] }
    {
        Badges {
            badges: Vec::new(alloc),
        }
    }

    /// The user of a badge, or none where the list has no such badge. Badges are compared byte for byte. It takes no memory.
    pub fn user_of(&self, badge: &[u8]) -> Option<u32>
        ensures { result ≡ user_of self.now badge.now }
    {
        user_among(&self.badges, badge)
    }
}

/// The user of a badge among these.
fn user_among(badges: &[Badge], badge: &[u8]) -> Option<u32>
    ensures { result ≡ user_of (rows_of badges.now) badge.now }
{
    for row in badges {
        if row.badge.as_slice() == badge {
            return Some(row.user);
        }
    }
    None
}

impl Gather for Badges {
    ghost use Rattle.list_opening.specs.Badges.{with_badge};
    ghost use Rattle.list_records.specs.Records.{begun_after};
    ghost use Rattle.list_opening.specs.Badges.{badge_names};

    ghost begun_by = { λ badges r. begun_after badge_names badges r };

    ghost with_record = { with_badge };

    fn begin(&mut self, _alloc: Global, fields: &[&[u8]]) -> Result<bool, AllocError> {
        Ok(is_record(&[b"badge", b"user"], fields))
    }

    fn add(&mut self, alloc: Global, fields: &[&[u8]]) -> Result<bool, AllocError> {
        let Some((badge, user)) = badge_row(fields) else {
            return Ok(false);
        };
        if self.user_of(badge).is_some() {
            return Ok(false);
        }
        let badge = Vec::from_slice(alloc, badge)?;
        self.badges.push(Badge { badge, user })?;
        Ok(true)
    }
}

/// The badge and the user that a record states.
fn badge_row<'a>(fields: &[&'a [u8]]) -> Option<(&'a [u8], u32)>
    ensures { option_map (λ row. (row.0.now, row.1)) result ≡ badge_row (map (λ f. f.now) fields.now) }
{
    match fields {
        [badge, user] => {
            let user = user_number(user)?;
            if is_badge(badge) {
                Some((*badge, user))
            } else {
                None
            }
        }
        _ => None,
    }
}

/// The users of a list of badges, whose heading is `badge,user`. The fault is the first bad record, or that memory was
/// refused, which may come at any record. A badge that stands twice is bad at its second record.
pub fn read_badges(alloc: Global, text: &[u8]) -> Result<Badges, RecordFault>
    ensures { IsReported (badges_of text.now) result }
{
    gather(alloc, text, Badges::new(alloc))
}
