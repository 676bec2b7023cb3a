//! What a cache returns while the policy changes below it, and how many entries it keeps.

use bank_books::{Plan, RowWrite, World};
use bank_policy::{
    CertifiedRow, HeldRow, ItemSet, Member, Policy, PolicyWrite, Relation, RelationKey, Triple,
    TripleKey, best_limit,
};
use bank_terms::{Cdi, Kind, Procedure};
use std::alloc::Global;
use std::process::Abort;
use std::rc::RcSlice;
use store_cached::Cached;
use store_rows::{ListStore, PolicyReads, Store};

/// A set of all accounts, a relation of the procedure to post on it, and a triple of user 7 from moment 800 to 900.
fn first_policy(rt: &impl Abort, alloc: Global) -> Plan {
    let members = vec![in alloc;
        Member {
            kind: Kind::Account,
            low: 1,
            high: 999,
        },
    ];
    let set = ItemSet::new(1, members.expect(rt, "memory"));
    let relation = Relation {
        procedure: Procedure::Post,
        set: 1,
        by: 2,
    };
    let triple = Triple {
        user: 7,
        procedure: Procedure::Post,
        set: 1,
        limit: 50_000,
        first: 800,
        last: 900,
    };
    vec![in alloc;
        RowWrite::Policy(PolicyWrite::Set(set)),
        RowWrite::Policy(PolicyWrite::Relation(relation)),
        RowWrite::Policy(PolicyWrite::Triple(triple)),
    ]
    .expect(rt, "memory")
}

/// That the triple is there no more.
pub(crate) const NO_TRIPLE: PolicyWrite = PolicyWrite::NoTriple(TripleKey {
    user: 7,
    procedure: Procedure::Post,
    set: 1,
});

/// That the relation is there no more.
const NO_RELATION: PolicyWrite = PolicyWrite::NoRelation(RelationKey {
    procedure: Procedure::Post,
    set: 1,
});

/// A cache over a store with no rows.
#[derive(Drop)]
struct Cache {
    store: Cached<ListStore>,
    alloc: Global,
}

impl Cache {
    fn new(rt: &impl Abort, alloc: Global) -> Cache {
        let store = ListStore::new(World::new(alloc, Policy::new(alloc)));
        let store = Cached::new(alloc, store).ok().expect(rt, "memory");
        Cache { store, alloc }
    }

    /// Has the store apply a plan.
    fn apply(&mut self, rt: &impl Abort, plan: Plan) {
        self.store.apply(self.alloc, plan).expect(rt, "no fault");
    }

    /// Has the policy changed once.
    fn change(&mut self, rt: &impl Abort, change: PolicyWrite) {
        let plan = vec![in self.alloc; RowWrite::Policy(change)];
        self.apply(rt, plan.expect(rt, "memory"));
    }

    fn triples_of(&mut self, rt: &impl Abort, user: u32) -> RcSlice<HeldRow> {
        let rows = self.store.triples_of(self.alloc, user, Procedure::Post);
        rows.expect(rt, "no fault")
    }

    fn relations(&mut self, rt: &impl Abort) -> RcSlice<CertifiedRow> {
        let rows = self.store.relations_of(self.alloc, Procedure::Post);
        rows.expect(rt, "no fault")
    }

    /// How many entries it keeps once the triples of a user were asked for.
    fn entries_after(&mut self, rt: &impl Abort, user: u32) -> usize {
        self.triples_of(rt, user);
        self.store.entry_count()
    }

    /// Asks for no triple of user 7.
    fn returns_no_triple(&mut self, rt: &impl Abort) {
        assert!(rt; self.triples_of(rt, 7).is_empty());
    }

    fn returns_no_relation(&mut self, rt: &impl Abort) {
        assert!(rt; self.relations(rt).is_empty());
    }

    /// Asks for the triple of user 7 above.
    fn returns_the_triple(&mut self, rt: &impl Abort) {
        let rows = self.triples_of(rt, 7);
        assert!(rt;
            rows.len() == 1 && rows[0].triple().limit == 50_000 && rows[0].members().len() == 1
        );
    }

    /// Asks for the relation above.
    fn returns_the_relation(&mut self, rt: &impl Abort) {
        let rows = self.relations(rt);
        assert!(rt; rows.len() == 1 && rows[0].relation().by == 2 && rows[0].members().len() == 1);
    }
}

/// Has the first policy made, and then its triple and its relation taken away.
fn follow_the_policy(rt: &impl Abort, cache: &mut Cache) {
    cache.returns_no_triple(rt);
    cache.returns_no_relation(rt);
    cache.apply(rt, first_policy(rt, cache.alloc));
    for _ in 0..2 {
        cache.returns_the_triple(rt);
        cache.returns_the_relation(rt);
    }
    cache.change(rt, NO_TRIPLE);
    cache.returns_no_triple(rt);
    cache.returns_the_relation(rt);
    cache.change(rt, NO_RELATION);
    cache.returns_no_relation(rt);
}

#[test]
fn rows_follow_the_policy(rt: HostRuntime) {
    follow_the_policy(&rt, &mut Cache::new(&rt, rt.alloc()));
}

/// A row that is kept bears the moments of its triple, by which each question is judged.
#[test]
fn a_kept_row_is_valid_from_its_first_moment_to_its_last(rt: HostRuntime) {
    let mut cache = Cache::new(&rt, rt.alloc());
    cache.apply(&rt, first_policy(&rt, rt.alloc()));
    let items = [Cdi {
        kind: Kind::Account,
        key: 101,
    }];
    for (moment, limit) in [
        (799, None),
        (800, Some(50_000)),
        (900, Some(50_000)),
        (901, None),
        (850, Some(50_000)),
    ] {
        let rows = cache.triples_of(&rt, 7);
        assert!(rt; best_limit(&rows, &items, moment) == limit, "{moment}");
        assert!(rt; cache.store.entry_count() == 1);
    }
}

/// Has the triples of one user more asked for than there may be entries.
fn fill(rt: &impl Abort, cache: &mut Cache) {
    assert!(rt; cache.entries_after(rt, 0) == 0);
    for user in 1..=64 {
        cache.entries_after(rt, user);
    }
    assert!(rt; cache.entries_after(rt, 65) == 64);
    assert!(rt; cache.store.unkept_count() == 0);
}

#[test]
fn sixty_four_entries_are_kept_at_most(rt: HostRuntime) {
    fill(&rt, &mut Cache::new(&rt, rt.alloc()));
}

/// What is kept is shared: who asks again gets the rows that were read once, and no copy of them.
#[test]
fn kept_rows_are_shared(rt: HostRuntime) {
    let mut cache = Cache::new(&rt, rt.alloc());
    cache.apply(&rt, first_policy(&rt, rt.alloc()));
    let triples = cache.triples_of(&rt, 7);
    let relations = cache.relations(&rt);
    assert!(rt; RcSlice::ptr_eq(&triples, &cache.triples_of(&rt, 7)));
    assert!(rt; RcSlice::ptr_eq(&relations, &cache.relations(&rt)));
}
