//! What a cache says beside the store below it. The functions do nothing; their contracts are the laws.

ghost use Rattle.bank_books.specs.WorldLists.{WorldLists};
ghost use Rattle.store_cached.specs.Standing.{below, cached_status};

use crate::cached::Cached;
use store_rows::Store;

/// A store with a cache is honest where the store below it is, and represents no other World. Whatever World a crash
/// may leave below, it says that a crash may leave it; it promises whole Worlds after a crash only if that holds below.
pub fn cache_is_as_honest<S: Store>(_cached: &Cached<S>)
    ensures honest { (S.status (below _cached.now)).is_honest → (cached_status S.status _cached.now).is_honest }
    ensures only { (w : WorldLists) → (cached_status S.status _cached.now).holds w → (S.status (below _cached.now)).holds w }
    ensures crash { (w : WorldLists) → (S.status (below _cached.now)).may_leave w → (cached_status S.status _cached.now).may_leave w }
    ensures whole { (cached_status S.status _cached.now).leaves_a_world → (S.status (below _cached.now)).leaves_a_world }
{}
