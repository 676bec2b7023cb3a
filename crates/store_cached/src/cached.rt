//! The store with a cache in front: what it keeps, and how it learns the present version of the policy.

ghost use Rattle.std.specs.Prelude.{◌≡◌, ◌≤◌, [], false, length, IfOk, IfErr, IfSome, IsSome, None};
ghost use Rattle.bank_books.specs.WorldLists.{WorldLists};
ghost use Rattle.store_rows.specs.Status.{ReadsRow};
ghost use Rattle.world_reads.specs.PolicyReads.{user_record};
ghost use Rattle.store_cached.specs.Users.{IsKnownOf};
ghost use Rattle.store_cached.specs.Standing.{below, cached_status, known_version, remembered, unkept_count};

use crate::known::Known;
use crate::policy_cache::PolicyCache;
use money::Fault;
use std::alloc::Global;
use store_rows::{Store, StoreState, UserRecord};

/// A store that keeps rows of the policy that it read of the store below: triples of a user for a
/// procedure, and relations of a procedure, at most `MAX_ENTRIES` of them. It answers from what it keeps
/// where that is of the present version of the policy. The version that it read last it keeps, too, until a
/// plan changes the policy, and beside it what it read of users, until a plan may change any. All else it
/// hands on.
#[derive(Drop)]
pub struct Cached<S> {
    pub(crate) store: S,
    pub(crate) cache: PolicyCache,
    /// The version of the policy, if it was read since a plan changed the policy last, and users beside it.
    pub(crate) known: Option<Known>,
    pub(crate) unkept: u64,
}

impl<S: Store> Cached<S> {
    /// The store with a cache in front that keeps nothing yet. It represents what the store represents. Where
    /// memory is refused the store is handed back.
    pub fn new(alloc: Global, store: S) -> Result<Cached<S>, S>
        ensures below { IfOk result (λ c. below c ≡ store) }
        ensures empty { IfOk result (λ c. remembered c ≡ []) }
        ensures unread { IfOk result (λ c. known_version c ≡ None) }
        ensures none { IfOk result (λ c. unkept_count c ≡ 0) }
        ensures holds { IfOk result (λ c. (w : WorldLists) → (S.status store).holds w → (cached_status S.status c).holds w) }
        ensures returned { IfErr result (λ s. s ≡ store) }
    {
        match PolicyCache::new(alloc) {
            Ok(cache) => Ok(Cached {
                store,
                cache,
                known: None,
                unkept: 0,
            }),
            Err(_) => Err(store),
        }
    }

    /// The store below.
    pub fn below(&self) -> &S
        ensures { result.now ≡ below self.now }
    {
        &self.store
    }

    /// The store below, without what is kept of it.
    pub fn into_below(self) -> S
        ensures { result ≡ below self }
    {
        self.store
    }

    /// How many entries it keeps.
    pub fn entry_count(&self) -> usize
        ensures count { result ≡ length (remembered self.now) }
        ensures bounded { result ≤ 64 }
    {
        self.cache.len()
    }

    /// How many times memory for an entry was refused. It stays at the greatest `u64`.
    pub fn unkept_count(&self) -> u64
        ensures { result ≡ unkept_count self.now }
    {
        self.unkept
    }

    /// The version of the policy: where the store below is not stopped, the one that is kept, and else the
    /// one that it answers, which is then kept.
    pub(crate) fn present_version(&mut self, alloc: Global) -> Result<u64, Fault>
        ensures reads { ReadsRow (cached_status S.status self.old) (cached_status S.status self.new) result (λ w n. n ≡ w.version) }
        ensures entries { remembered self.new ≡ remembered self.old }
        ensures unkept { unkept_count self.new ≡ unkept_count self.old }
    {
        if let Some(version) = self.kept_version() {
            return Ok(version);
        }
        let version = self.store.version(alloc)?;
        self.known = Some(Known::new(version));
        Ok(version)
    }

    /// The version of the policy that is kept, if one is and the store below is not stopped.
    fn kept_version(&self) -> Option<u64>
        ensures works { IsSome result → (S.status (below self.now)).is_stopped ≡ false }
        ensures stated { IfSome result (λ version. (w : WorldLists) → IfSome (known_version self.now) (IsKnownOf w) → version ≡ w.version) }
    {
        match &self.known {
            Some(known) if !self.store.is_stopped() => Some(known.version),
            _ => None,
        }
    }

    /// What is kept of a user, if the store below is not stopped.
    pub(crate) fn kept_user(&self, user: u32) -> Option<Option<UserRecord>>
        ensures works { IsSome result → (S.status (below self.now)).is_stopped ≡ false }
        ensures stated { IfSome result (λ row. (w : WorldLists) → IfSome (known_version self.now) (IsKnownOf w) → row ≡ user_record w user) }
    {
        match &self.known {
            Some(known) if !self.store.is_stopped() => known.recall(user),
            _ => None,
        }
    }

    /// Keeps what was read of a user, if the version of the policy is known.
    pub(crate) fn keep_user(&mut self, user: u32, row: Option<UserRecord>)
        ensures below { below self.new ≡ below self.old }
        ensures entries { remembered self.new ≡ remembered self.old }
        ensures unkept { unkept_count self.new ≡ unkept_count self.old }
        ensures known { (w : WorldLists) → row ≡ user_record w user → IfSome (known_version self.old) (IsKnownOf w) → IfSome (known_version self.new) (IsKnownOf w) }
    {
        if let Some(known) = &mut self.known {
            known.keep(user, row);
        }
    }
}

impl<S: Store> StoreState for Cached<S> {
    ghost status = { cached_status S.status };

    fn faults(&self) -> u64 {
        self.store.faults()
    }

    fn is_stopped(&self) -> bool {
        self.store.is_stopped()
    }
}
