//! How many releases and slips each user has, from the rows of users and those of slip counts.

ghost use Rattle.std.specs.Prelude.{◌≡◌, IfOk};
ghost use Rattle.sql_adopt.specs.ReadBack.{counts_read_back, releases_at};

use bank_books::ReleaseCount;
use book_kept::{KeptUser, SlipCount};
use money::Fault;
use std::alloc::Global;

/// The releases of the user at this place, or none where no user is.
fn releases_at(users: &[KeptUser], at: usize) -> u64
    ensures { result ≡ releases_at users.now at }
{
    match users.get(at) {
        Some(user) => user.releases,
        None => 0,
    }
}

/// What is counted of these users, a row of slips beside each in their order. Where there are fewer or more of
/// these than users there are fewer or more counts, which no bank has.
pub(crate) fn counts_of(
    alloc: Global,
    counts: &[SlipCount],
    users: &[KeptUser],
) -> Result<Vec<ReleaseCount>, Fault>
    ensures { IfOk result (λ list. list.items ≡ counts_read_back counts.now users.now) }
{
    let mut list = Vec::with_capacity(alloc, counts.len())?;
    for row in counts {
        let releases = releases_at(users, list.len());
        list.push(ReleaseCount {
            user: row.user,
            releases,
            slips: row.slips,
        })?;
    }
    Ok(list)
}
