//! What a release changes in the number of its user's releases: it bears the next number, or is refused.

ghost use Rattle.std.specs.Prelude.{◌≡◌, ◌+◌, IfSome, IsSome};
ghost use Rattle.book_kept.specs.After.{IsAfterRelease};

use bank_books::Release;

/// What a release makes of the number of releases of its user, or none where it doesn't bear the next
/// number of that user.
pub fn with_release(releases: u64, release: &Release) -> Option<u64>
    ensures kept { IfSome result (λ after. IsAfterRelease release.now releases after) }
    ensures stated { release.now.number ≡ releases + 1 → IsSome result }
{
    let number = release.number as u64;
    let after = releases.checked_add(1)?;
    if number == after { Some(after) } else { None }
}
