//! The cache itself: rows of the policy by user and procedure, recalled only at the version that they were read at.

ghost use Rattle.std.specs.Prelude.{◌≡◌, ◌<◌, ◌≤◌, [], length, IfOk, IfSome, IsOk, IsSome, IfNone, OnOk, OnErr, OnSome};
ghost use Rattle.std.specs.Option.{option_copied};
ghost use Rattle.std.specs.Rc.{rc_slice_items};
ghost use Rattle.bank_books.specs.WorldLists.{WorldLists};
ghost use Rattle.bank_policy.specs.HeldRows.{relations_of, triples_of};
ghost use Rattle.store_cached.specs.Fresh.{AreFresh, HasRows, IsFirst, entry_of, rows_kept};

use crate::entry::{Kept, Key, Rows};
use crate::lending::lent_rows;
use bank_policy::{CertifiedRow, HeldRow};
use lru::LruCache;
use std::alloc::{AllocError, Global};
use std::marker::Model;
use std::num::NonZeroUsize;
use std::rc::RcSlice;

/// How many entries a cache keeps at most.
pub const MAX_ENTRIES: usize = 64;

/// Rows of the policy that were read, the last used first, at most `MAX_ENTRIES` of them.
#[derive(Drop)]
pub struct PolicyCache {
    entries: LruCache<Key, Kept>,
}

impl Model for PolicyCache {
    ghost use Rattle.std.specs.Prelude.{◌≡◌, List};
    ghost use Rattle.store_cached.specs.declared.entry.Kept.{Kept};
    ghost use Rattle.store_cached.specs.declared.entry.Key.{Key};
    ghost use Rattle.store_cached.specs.declared.policy_cache.TheConstants.{MAX_ENTRIES};

    ghost Value = { List (Key × Kept) };

    ghost view = { λ c. c.entries.entries };

    ghost invariant = { λ c. c.entries.cap ≡ MAX_ENTRIES };
}

impl PolicyCache {
    /// A cache of no entries. Only memory keeps it from one.
    pub fn new(alloc: Global) -> Result<PolicyCache, AllocError>
        ensures { IfOk result (λ cache. cache ≡ []) }
    {
        let most = NonZeroUsize::new(MAX_ENTRIES).unwrap();
        let entries = LruCache::new(alloc, most)?;
        Ok(PolicyCache { entries })
    }

    /// How many entries it has.
    pub fn len(&self) -> usize
        ensures count { result ≡ length self.now }
        ensures bounded { result ≤ 64 }
    {
        self.entries.len()
    }

    /// The rows that are kept for a key at this version, or none where no rows of this version are kept.
    fn find(&self, key: Key, version: u64) -> Option<&Rows>
        ensures { option_copied result ≡ rows_kept key version self.now }
    {
        match self.entries.peek(&key) {
            Some(kept) if kept.version == version => Some(&kept.rows),
            _ => None,
        }
    }

    /// Shares the rows that are kept for a key at this version, which are the last used from now on. None, and
    /// nothing is changed, where no rows of this version are kept, or where they are shared as often as can be
    /// counted. It takes no memory.
    pub fn recall(&mut self, key: Key, version: u64) -> Option<Rows>
        ensures stated { IfSome result (λ rows. (w : WorldLists) → AreFresh w self.old → version ≡ w.version → HasRows w key rows) }
        ensures fresh { (w : WorldLists) → AreFresh w self.old → AreFresh w self.new }
        ensures first { OnSome result (IsFirst key version self.new) }
        ensures none { IfNone result (self.new ≡ self.old) }
    {
        let kept = self.find(key, version)?;
        let rows = lent_rows(kept).ok()?;
        self.entries.promote(&key);
        Some(rows)
    }

    /// Keeps the triples of a user for a procedure, as `remember` does.
    pub fn remember_triples(
        &mut self,
        key: Key,
        version: u64,
        rows: &RcSlice<HeldRow>,
    ) -> Result<(), AllocError>
        ensures fresh { (w : WorldLists) → AreFresh w self.old → version ≡ w.version → 0 < key.user → rc_slice_items rows.now ≡ triples_of w.policy key.user key.procedure → AreFresh w self.new }
        ensures first { OnOk result (IsFirst key version self.new) }
    {
        let lent = rows.clone()?;
        self.remember(key, version, Rows::Triples(lent))
    }

    /// Keeps the relations of a procedure, as `remember` does.
    pub fn remember_relations(
        &mut self,
        key: Key,
        version: u64,
        rows: &RcSlice<CertifiedRow>,
    ) -> Result<(), AllocError>
        ensures fresh { (w : WorldLists) → AreFresh w self.old → version ≡ w.version → key.user ≡ 0 → rc_slice_items rows.now ≡ relations_of w.policy key.procedure → AreFresh w self.new }
        ensures first { OnOk result (IsFirst key version self.new) }
    {
        let lent = rows.clone()?;
        self.remember(key, version, Rows::Relations(lent))
    }

    /// Keeps the rows of a key as they are at this version, in place of what was kept for it. They are the
    /// last used from now on. Where memory is refused nothing is kept anew; a key that has an entry needs none.
    fn remember(&mut self, key: Key, version: u64, rows: Rows) -> Result<(), AllocError>
        ensures fresh { (w : WorldLists) → AreFresh w self.old → version ≡ w.version → HasRows w key rows → AreFresh w self.new }
        ensures first { OnOk result (IsFirst key version self.new) }
        ensures err { OnErr result (self.new ≡ self.old) }
        ensures succeeds { IsSome (entry_of key self.old) → IsOk result }
    {
        match self.entries.put(key, Kept { version, rows }) {
            Ok(_) => Ok(()),
            Err(_) => Err(AllocError),
        }
    }
}
