//! Worked commands, and the limits that they meet.

ghost use Rattle.policy_commands.specs.Ranges.{IsPolicyOp};

use crate::who::{standing, user};
use bank_books::{Lists, World};
use bank_policy::{ItemSet, RelationKey, Triple};
use bank_terms::{MAX_MOMENT, MAX_RELATIONS, MAX_SETS, MAX_TRIPLES, MAX_VERSION, Procedure};
use decide::{
    Asked, CommandGrounds, CommandRows, Loaded, PolicyOp, Request, Rule, Who, decide_policy,
    first_rule,
};
use money::Fault;
use policy_commands::UserKey;
use sample_bank::sample_policy;
use std::alloc::Global;
use std::process::Abort;
use store_rows::{Bank, ListStore, PolicyReads, StoreState};

/// That Tess is suspended.
fn suspend_tess() -> PolicyOp
    ensures { IsPolicyOp result }
{
    PolicyOp::Suspend(UserKey { user: 7 })
}

/// That Sue may ask for balances on set 2.
fn grant_sue() -> PolicyOp
    ensures { IsPolicyOp result }
{
    PolicyOp::Grant(Triple {
        user: 9,
        procedure: Procedure::Balance,
        set: 2,
        limit: 0,
        first: 0,
        last: MAX_MOMENT,
    })
}

/// A bank in lists, as it is given commands.
#[derive(Drop)]
struct Desk {
    bank: Bank<ListStore>,
    alloc: Global,
}

impl Desk {
    fn over(alloc: Global, world: World) -> Desk {
        let store = ListStore::new(world);
        Desk {
            bank: Bank { store },
            alloc,
        }
    }

    /// That of a bank with the policy of the sample, which was changed so often, and with no books.
    fn changed_so_often(rt: &impl Abort, alloc: Global, version: u64) -> Desk {
        let policy = sample_policy(alloc).expect(rt, "memory");
        let world = World::from_lists(Lists::new(alloc), policy, version);
        Desk::over(alloc, world.expect(rt, "rows in order"))
    }

    /// A command that has to be carried out, with the body of its reply.
    fn done(&mut self, rt: &impl Abort, who: Who, command: PolicyOp, body: &str)
        requires { IsPolicyOp command }
    {
        let given = decide_policy(&mut self.bank, self.alloc, who, command);
        match given.expect(rt, "no fault") {
            Ok(given) => assert!(rt; given.as_slice() == body.as_bytes(), "{body}"),
            Err(rule) => panic!(rt; "{}", rule.name()),
        }
    }

    /// A command that has to be denied by this rule.
    fn denied(&mut self, rt: &impl Abort, who: Who, command: PolicyOp, rule: Rule)
        requires { IsPolicyOp command }
    {
        let given = decide_policy(&mut self.bank, self.alloc, who, command);
        assert!(rt;
            given.expect(rt, "no fault") == Err(rule),
            "{}",
            rule.name()
        );
    }

    /// A command that no rule denies, and for which there is no room. It is the fault of this number.
    fn finds_no_room(&mut self, rt: &impl Abort, who: Who, command: PolicyOp, faults: u64)
        requires { IsPolicyOp command }
    {
        let given = decide_policy(&mut self.bank, self.alloc, who, command);
        assert!(rt; given == Err(Fault::Size));
        self.has_faults(rt, faults);
    }

    /// Asks for how many calls of the store answered a fault.
    fn has_faults(&self, rt: &impl Abort, faults: u64) {
        assert!(rt; self.bank.store.faults() == faults);
    }

    fn version(&mut self, rt: &impl Abort) -> u64 {
        self.bank.store.version(self.alloc).expect(rt, "no fault")
    }

    /// Asks for how many triples Sue has.
    fn triples_of_sue_are(&mut self, rt: &impl Abort, count: u64) {
        let triples = self.bank.store.triples(self.alloc, 9);
        assert!(rt; triples.expect(rt, "no fault") == count);
    }

    /// Asks for a Tess who is not suspended.
    fn tess_stands(&mut self, rt: &impl Abort) {
        let tess = self.bank.store.user(self.alloc, 7).expect(rt, "no fault");
        assert!(rt; tess.expect(rt, "Tess").standing == standing(false));
    }
}

/// Asks for a policy of the greatest version in which Tess and Sue stand as in the sample.
fn nothing_has_changed(rt: &impl Abort, desk: &mut Desk) {
    desk.tess_stands(rt);
    desk.triples_of_sue_are(rt, 4);
    assert!(rt; desk.version(rt) == MAX_VERSION);
}

/// The rules come first, and then there is no room.
#[test]
fn the_policy_of_the_greatest_version_stays(rt: HostRuntime) {
    let mut desk = Desk::changed_so_often(&rt, rt.alloc(), MAX_VERSION);
    desk.denied(&rt, user(2), suspend_tess(), Rule::Officer);
    desk.has_faults(&rt, 0);
    desk.finds_no_room(&rt, user(1), suspend_tess(), 1);
    desk.finds_no_room(&rt, user(2), grant_sue(), 2);
    nothing_has_changed(&rt, &mut desk);
}

#[test]
fn the_greatest_version_is_reached_by_a_command(rt: HostRuntime) {
    let mut desk = Desk::changed_so_often(&rt, rt.alloc(), MAX_VERSION - 1);
    desk.done(&rt, user(1), suspend_tess(), r#"{"done":"suspend"}"#);
    assert!(rt; desk.version(&rt) == MAX_VERSION);
    desk.finds_no_room(&rt, user(2), grant_sue(), 1);
}

/// The first rule against a command of Carl's, who is a certifier, where these are its rows.
fn first_against(rows: CommandRows, command: PolicyOp) -> Option<Rule> {
    let rows = Loaded::Command(CommandGrounds {
        standing: Some(standing(false)),
        rows,
    });
    let request = Request {
        who: user(2),
        moment: 700,
        asked: Asked::Command(command),
    };
    first_rule(&rows, &request)
}

/// One less than the most there may be is room for one more.
#[test]
fn relations_of_a_procedure_have_a_limit(rt: HostRuntime) {
    let most = MAX_RELATIONS as u64;
    let certified = RelationKey {
        procedure: Procedure::Balance,
        set: 6,
    };
    let rows = CommandRows::of_certify(true, true, &[], &certified);
    for (count, has_set, first) in [
        (most - 1, true, None),
        (most, true, Some(Rule::PolicyState)),
        (most - 1, false, Some(Rule::PolicyUnknown)),
        (most, false, Some(Rule::PolicyUnknown)),
    ] {
        let rows = CommandRows {
            count,
            has_set,
            ..rows
        };
        assert!(rt; first_against(rows, PolicyOp::Certify(certified)) == first);
    }
}

#[test]
fn triples_of_a_user_have_a_limit(rt: HostRuntime) {
    let most = MAX_TRIPLES as u64;
    for (count, is_related, first) in [
        (most - 1, true, None),
        (most, true, Some(Rule::PolicyState)),
        (most - 1, false, Some(Rule::PolicyUnknown)),
        (most, false, Some(Rule::PolicyUnknown)),
    ] {
        let rows = CommandRows {
            user: Some(standing(false)),
            is_related,
            ..CommandRows::of_define_set(true, false, count)
        };
        assert!(rt; first_against(rows, grant_sue()) == first);
    }
}

#[test]
fn sets_have_a_limit(rt: HostRuntime) {
    let alloc = rt.alloc();
    for (count, first) in [
        (MAX_SETS as u64 - 1, None),
        (MAX_SETS as u64, Some(Rule::PolicyState)),
    ] {
        let rows = CommandRows::of_define_set(true, false, count);
        let set = ItemSet::new(6, Vec::new(alloc));
        assert!(rt; first_against(rows, PolicyOp::DefineSet(set)) == first);
    }
}
