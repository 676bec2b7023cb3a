//! One user's record and releases, and reads of the policy: its triples, sets and certifiers.

ghost use Rattle.std.specs.Prelude.{◌≡◌};
ghost use Rattle.std.specs.List.{find};
ghost use Rattle.std.specs.Option.{option_copied};
ghost use Rattle.bank_books.specs.Records.{release_count};
ghost use Rattle.world_reads.specs.BookReads.{is_release, release};
ghost use Rattle.world_reads.specs.PolicyReads.{is_certifier, is_set, set_count, triple_count, user_record};

use crate::records::UserRecord;
use bank_books::World;
use bank_policy::{Standing, user_row};
use bank_terms::Procedure;

/// The release of a user that bears this number, or none where it isn't there. It takes no memory.
pub fn release(world: &World, user: u32, number: u32) -> Option<bank_books::Release>
    ensures { result ≡ release world.now user number }
{
    release_row(world.releases(), user, number).copied()
}

fn release_row(rows: &[bank_books::Release], user: u32, number: u32) -> Option<&bank_books::Release>
    ensures { option_copied result ≡ find (is_release user number) rows.now }
{
    rows.iter()
        .find(|row| row.user == user && row.number == number)
}

/// What the row of this user says of whether they may ask, and how many releases they were given, or
/// none where there is no such user. It takes no memory.
pub fn user_record(world: &World, user: u32) -> Option<UserRecord>
    ensures { result ≡ user_record world.now user }
{
    let row = user_row(world.policy(), user)?;
    Some(UserRecord {
        standing: Standing {
            officer: row.officer,
            suspended: row.suspended,
            session: row.session,
            on: row.on,
        },
        releases: release_count(world, row.user),
    })
}

fn release_count(world: &World, user: u32) -> u64
    ensures { result ≡ release_count user world.now.releases }
{
    world
        .releases()
        .iter()
        .filter(|release| release.user == user)
        .count() as u64
}

/// How many triples a user has. It takes no memory.
pub fn triple_count(world: &World, user: u32) -> u64
    ensures { result ≡ triple_count world.now user }
{
    world
        .policy()
        .triples()
        .iter()
        .filter(|triple| triple.user == user)
        .count() as u64
}

/// How many sets are defined. It takes no memory.
pub fn set_count(world: &World) -> u64
    ensures { result ≡ set_count world.now }
{
    world.policy().sets().len() as u64
}

/// Whether a set of this number is defined. It takes no memory.
pub fn is_set(world: &World, number: u32) -> bool
    ensures { result ≡ is_set world.now number }
{
    world.policy().sets().iter().any(|row| row.set() == number)
}

/// Whether the user may certify the procedure. It takes no memory.
pub fn is_certifier(world: &World, user: u32, procedure: Procedure) -> bool
    ensures { result ≡ is_certifier world.now user procedure }
{
    world.policy().certifiers().iter().any(|row| row.user == user
        && row.procedure.number() == procedure.number())
}
