//! How proofs are numbered by the days of their branch, releases by user, and parts within one group.

ghost use Rattle.std.specs.Prelude.{◌≡◌, ◌↔◌, ◌+◌, ◌≤◌, ◌==◌, IsTrue, filter, map};
ghost use Rattle.std.specs.List.{count_by};
ghost use Rattle.std.specs.List.Sorted.{IsNonDecreasingBy};
ghost use Rattle.keyed_rows.specs.Ordered.{AreDistinct};
ghost use Rattle.bank_books.specs.Numbering.{AreNumbered};
ghost use Rattle.bank_books.specs.Range.{HasDistinctKeys};
ghost use Rattle.bank_books.specs.Records.{release_count};
ghost use Rattle.book_range.specs.RangeParts.{AreCashBooksInRange, AreReleasesAlone, AreReleasesNumbered};
ghost use Rattle.book_range.specs.Numbers.{BearNumbers};
ghost use Rattle.book_sums.specs.Shares.{part_key};

use crate::numbers::bear_numbers;
use bank_books::{Branch, Proof, Release, World};
use book_sums::{Part, rows_of_group};
use keyed_rows::has_distinct_keys;

/// Whether the proofs of a branch are those of the days before its present one, each once.
pub(crate) fn has_numbered_days(world: &World, branch: &Branch) -> bool
    requires distinct { HasDistinctKeys world.now }
    requires days { AreCashBooksInRange world.now }
    ensures { IsTrue result ↔ (AreNumbered (λ p. p.branch) (λ p. p.day) world.now.proofs branch.now.branch × (count_by (λ p. p.branch == branch.now.branch) world.now.proofs + 1 ≡ branch.now.day)) }
{
    let proofs = proofs_of(world, branch.branch);
    proofs.len() as u64 + 1 == branch.day as u64 && bear_numbers(proofs)
}

fn proofs_of(world: &World, branch: u32) -> &[Proof]
    requires { AreCashBooksInRange world.now }
    ensures { result.now ≡ filter (λ p. p.branch == branch) world.now.proofs }
{
    rows_of_group(world.proofs(), branch)
}

/// Whether the releases of each user bear the numbers 1, 2, 3 and so on, each once.
pub(crate) fn are_releases_numbered(world: &World) -> bool
    requires distinct { HasDistinctKeys world.now }
    requires numbers { AreReleasesAlone world.now }
    ensures { IsTrue result ↔ AreReleasesNumbered world.now }
{
    world
        .releases()
        .iter()
        .all(|release| is_numbered(world, release))
}

/// Whether the number of a release is from 1 to how many its user was given.
fn is_numbered(world: &World, release: &Release) -> bool
    requires { AreReleasesAlone world.now }
    ensures { IsTrue result ↔ ((1 ≤ release.now.number) × (release.now.number ≤ release_count release.now.user world.now.releases)) }
{
    1 <= release.number && release.number as u64 <= release_count(world, release.user)
}

fn release_count(world: &World, user: u32) -> u64
    requires { AreReleasesAlone world.now }
    ensures { result ≡ release_count user world.now.releases }
{
    rows_of_group(world.releases(), user).len() as u64
}

/// Whether parts of one group are numbered 1, 2, 3 and so on, each once.
pub fn are_numbered(parts: &[Part]) -> bool
    requires { IsNonDecreasingBy part_key parts.now }
    ensures { IsTrue result ↔ (AreDistinct (map part_key parts.now) × BearNumbers (λ p. p.number) parts.now) }
{
    has_distinct_keys(parts) && bear_numbers(parts)
}
