//! Releases by rows that the sample never has.

use crate::who::{standing, user};
use bank_policy::{CertifiedRow, HeldRow, Standing};
use bank_terms::{MAX_RELEASES, Procedure};
use counter_ops::{Post, Releasable, Release};
use decide::{
    Asked, BookRows, Loaded, NamedRelease, Op, OperationRows, PolicyRows, ReleaseRows, Request,
    Rule, SlipRows, Who, first_rule,
};
use money::Delta;
use postings::PostRows;
use sample_bank::sample_world;
use std::alloc::Global;
use std::process::Abort;
use std::rc::RcSlice;
use store_rows::{BookReads, ListStore, PolicyReads};

/// Tom, who posts up to 500.00.
const TOM: u32 = 8;

/// Sue, who gives releases.
const SUE: u32 = 9;

/// A post of more than Tom may.
fn great_post(rt: &impl Abort) -> Post {
    Post {
        account: 101,
        branch: 1,
        delta: Delta::new(60_000).expect(rt, "a delta"),
        teller: 12,
    }
}

/// The sample in lists.
fn sample(rt: &impl Abort, alloc: Global) -> ListStore {
    ListStore::new(sample_world(alloc).expect(rt, "memory"))
}

/// The triples of a user of the sample for a procedure.
fn triples_of(rt: &impl Abort, alloc: Global, user: u32, procedure: Procedure) -> RcSlice<HeldRow> {
    let rows = sample(rt, alloc).triples_of(alloc, user, procedure);
    rows.expect(rt, "no fault")
}

/// The relations of a procedure of the sample.
fn relations_of(rt: &impl Abort, alloc: Global, procedure: Procedure) -> RcSlice<CertifiedRow> {
    let rows = sample(rt, alloc).relations_of(alloc, procedure);
    rows.expect(rt, "no fault")
}

/// The rows of the policy of the sample by which an operation of this user is judged that names no release.
fn policy_of(rt: &impl Abort, alloc: Global, user: u32, procedure: Procedure) -> PolicyRows {
    PolicyRows {
        standing: Some(standing(false)),
        relations: relations_of(rt, alloc, procedure),
        held: triples_of(rt, alloc, user, procedure),
        released: None,
    }
}

/// The rows of the books of the sample by which that post is judged.
fn books_of_post(rt: &impl Abort, alloc: Global) -> BookRows {
    let mut store = sample(rt, alloc);
    let account = store.account(alloc, 101).expect(rt, "no fault");
    let teller = store.teller(alloc, 12).expect(rt, "no fault");
    let branch = store.branch(alloc, 1).expect(rt, "no fault");
    BookRows::Post(PostRows::of(account, teller, branch))
}

/// The first rule against an operation that is judged by these rows.
fn first_against(policy: PolicyRows, books: BookRows, who: Who, op: Op) -> Option<Rule> {
    let rows = Loaded::Operation(OperationRows {
        policy,
        books,
        slip: SlipRows {
            found: None,
            count: 0,
        },
    });
    let request = Request {
        who,
        moment: 700,
        asked: Asked::Operation(op),
    };
    first_rule(&rows, &request)
}

/// The first release of Tom's, which Sue has given him for that post today, and which he hasn't used.
fn given(rt: &impl Abort, alloc: Global) -> NamedRelease {
    NamedRelease {
        row: bank_books::Release {
            user: TOM,
            number: 1,
            giver: SUE,
            branch: 1,
            day: 1,
            operation: Op::Post(great_post(rt)).to_row(),
            used: false,
        },
        today: Some(1),
        giver: Some(standing(false)),
        held: triples_of(rt, alloc, SUE, Procedure::Release),
    }
}

/// Asks for this first rule against that post of Tom's over the sample, where he names his first release, of
/// which these rows are read.
fn first_is(rt: &impl Abort, alloc: Global, released: Option<NamedRelease>, rule: Option<Rule>) {
    let mut policy = policy_of(rt, alloc, TOM, Procedure::Post);
    policy.released = released;
    let mut who = user(TOM);
    who.release = 1;
    let op = Op::Post(great_post(rt));
    let first = first_against(policy, books_of_post(rt, alloc), who, op);
    assert!(rt; first == rule);
}

/// That a release of these rows doesn't let the post be.
fn is_not_valid(rt: &impl Abort, alloc: Global, named: NamedRelease) {
    first_is(rt, alloc, Some(named), Some(Rule::Release));
}

/// A release of yesterday is not valid, nor one of a branch that isn't there.
#[test]
fn a_release_is_valid_on_its_day(rt: HostRuntime) {
    let alloc = rt.alloc();
    for (today, first) in [
        (Some(1), None),
        (Some(2), Some(Rule::Release)),
        (None, Some(Rule::Release)),
    ] {
        let mut named = given(&rt, alloc);
        named.today = today;
        first_is(&rt, alloc, Some(named), first);
    }
}

/// A release by a user who isn't there or is suspended is not valid; one by a user who has left is.
#[test]
fn validity_of_a_release_depends_on_who_gave_it(rt: HostRuntime) {
    let alloc = rt.alloc();
    let suspended = Standing {
        suspended: true,
        ..standing(false)
    };
    let has_left = Standing {
        on: false,
        ..standing(false)
    };
    for (giver, first) in [
        (None, Some(Rule::Release)),
        (Some(suspended), Some(Rule::Release)),
        (Some(has_left), None),
    ] {
        let mut named = given(&rt, alloc);
        named.giver = giver;
        first_is(&rt, alloc, Some(named), first);
    }
}

#[test]
fn a_valid_release_is_by_another_who_has_a_triple(rt: HostRuntime) {
    let alloc = rt.alloc();
    let mut by_its_beneficiary = given(&rt, alloc);
    by_its_beneficiary.row.giver = TOM;
    is_not_valid(&rt, alloc, by_its_beneficiary);
    let mut by_one_without_a_triple = given(&rt, alloc);
    by_one_without_a_triple.held = RcSlice::from_vec(Vec::new(alloc)).expect(&rt, "memory");
    is_not_valid(&rt, alloc, by_one_without_a_triple);
}

/// The first rule against Sue's giving a user a release for that post, if they have `given`.
fn first_against_giving(
    rt: &impl Abort,
    alloc: Global,
    beneficiary: u32,
    given: u64,
) -> Option<Rule> {
    let policy = policy_of(rt, alloc, SUE, Procedure::Release);
    let books = BookRows::Release(ReleaseRows {
        given: Some(given),
        today: Some(1),
    });
    let release = Release {
        beneficiary,
        operation: Releasable::Post(great_post(rt)),
    };
    first_against(policy, books, user(SUE), Op::Release(release))
}

#[test]
fn releases_of_a_user_have_a_limit(rt: HostRuntime) {
    let alloc = rt.alloc();
    let most = MAX_RELEASES as u64;
    for (beneficiary, given, first) in [
        (TOM, most - 1, None),
        (TOM, most, Some(Rule::Full)),
        (SUE, most, Some(Rule::SecondPerson)),
    ] {
        assert!(rt; first_against_giving(&rt, alloc, beneficiary, given) == first);
    }
}
