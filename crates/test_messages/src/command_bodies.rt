//! Bodies of commands: which command each states, and bytes that state none.

use bank_policy::{Certifier, ItemSet, Member, Name, RelationKey, Triple, TripleKey};
use bank_terms::{Kind, MAX_MOMENT, Procedure};
use bodies::read_command;
use policy_commands::{Command, Enrolment, PolicyOp, UserKey};
use std::process::Abort;

const RELATION: RelationKey = RelationKey {
    procedure: Procedure::DrawerOn,
    set: 999_999_999,
};

const TRIPLE: Triple = Triple {
    user: 9_999,
    procedure: Procedure::Post,
    set: 1,
    limit: 999_999_999,
    first: 0,
    last: MAX_MOMENT,
};

const TRIPLE_KEY: TripleKey = TripleKey {
    user: 7,
    procedure: Procedure::Post,
    set: 1,
};

const CERTIFIER: Certifier = Certifier {
    user: 1,
    procedure: Procedure::CloseDay,
};

const USER: UserKey = UserKey { user: 7 };

const ACCOUNT: Member = Member {
    kind: Kind::Account,
    low: 101,
    high: 102,
};

/// The body states this command.
fn states(rt: &(impl Abort + AllocGlobal), command: Command, body: &str, asked: PolicyOp) {
    let read = read_command(rt.alloc(), command, body.as_bytes()).expect(rt, "memory");
    let given = format!(in rt.alloc(); "{read:?}").expect(rt, "memory");
    let stated = format!(in rt.alloc(); "{:?}", Some(asked)).expect(rt, "memory");
    assert!(rt; given == stated);
}

#[test]
fn bodies_that_state_a_relation_or_a_user(rt: HostRuntime) {
    states(
        &rt,
        Command::Certify,
        r#"{"procedure":"drawer-on","set":999999999}"#,
        PolicyOp::Certify(RELATION),
    );
    states(
        &rt,
        Command::Withdraw,
        r#" {"set" : 999999999,"procedure":"drawer-on"}"#,
        PolicyOp::Withdraw(RELATION),
    );
    let user = r#"{"user":7}"#;
    states(&rt, Command::Suspend, user, PolicyOp::Suspend(USER));
    states(&rt, Command::Restore, user, PolicyOp::Restore(USER));
}

#[test]
fn bodies_that_state_a_triple_or_a_certifier(rt: HostRuntime) {
    states(
        &rt,
        Command::Grant,
        r#"{"limit":999999999,"procedure":"post","set":1,"user":9999}"#,
        PolicyOp::Grant(TRIPLE),
    );
    states(
        &rt,
        Command::Revoke,
        r#"{"procedure":"post","set":1,"user":7}"#,
        PolicyOp::Revoke(TRIPLE_KEY),
    );
    states(
        &rt,
        Command::Appoint,
        r#"{"procedure":"close-day","user":1}"#,
        PolicyOp::Appoint(CERTIFIER),
    );
    states(
        &rt,
        Command::Dismiss,
        r#"{"procedure":"post","procedure":"close-day","user":1}"#,
        PolicyOp::Dismiss(CERTIFIER),
    );
}

/// The triple, from the first of these moments to the last.
fn granted(first: u64, last: u64) -> PolicyOp {
    PolicyOp::Grant(Triple {
        first,
        last,
        ..TRIPLE
    })
}

#[test]
fn bodies_that_state_a_triple_with_moments(rt: HostRuntime) {
    for (body, asked) in [
        (
            r#"{"first":800,"last":900,"limit":999999999,"procedure":"post","set":1,"user":9999}"#,
            granted(800, 900),
        ),
        (
            r#"{"limit":999999999,"procedure":"post","set":1,"user":9999,"last":99999999999,"first":0}"#,
            granted(0, MAX_MOMENT),
        ),
        (
            r#"{"first":99999999999,"last":99999999999,"limit":999999999,"procedure":"post","set":1,"user":9999}"#,
            granted(MAX_MOMENT, MAX_MOMENT),
        ),
        (
            r#"{"first":0,"last":0,"limit":999999999,"procedure":"post","set":1,"user":9999}"#,
            granted(0, 0),
        ),
    ] {
        states(&rt, Command::Grant, body, asked);
    }
}

#[test]
fn bodies_that_state_other_moments_state_no_triple(rt: HostRuntime) {
    for moments in [
        r#""first":800"#,
        r#""last":900"#,
        r#""first":901,"last":900"#,
        r#""first":1,"last":0"#,
        r#""first":0,"last":100000000000"#,
        r#""first":100000000000,"last":100000000000"#,
        r#""first":-1,"last":900"#,
        r#""first":"0","last":900"#,
        r#""first":0,"last":900.0"#,
        r#""first":null,"last":900"#,
        r#""first":0,"Last":900"#,
        r#""first":0,"last":900,"at":0"#,
    ] {
        let body = format!(in rt.alloc();
            "{{\"limit\":0,\"procedure\":\"post\",\"set\":1,\"user\":7,{moments}}}"
        );
        let body = body.expect(&rt, "memory");
        assert!(rt;
            is_none_stated(&rt, Command::Grant, body.as_bytes()),
            "at {moments}"
        );
    }
}

/// The body that defines set 1 as an account, this many times.
fn accounts_body(rt: &(impl Abort + AllocGlobal), count: u32) -> String {
    let front = r#"{"set":1,"members":[[1,101,102]"#;
    let mut text = String::from_str(rt.alloc(), front).expect(rt, "memory");
    for _ in 1..count {
        text.push_str(",[1,101,102]").expect(rt, "memory");
    }
    text.push_str("]}").expect(rt, "memory");
    text
}

#[test]
fn bodies_that_state_a_set(rt: HostRuntime) {
    let low = Member {
        kind: Kind::Account,
        low: 1,
        high: 1,
    };
    let high = Member {
        kind: Kind::Vault,
        low: 1,
        high: 999_999_999,
    };
    let two = vec![in rt.alloc(); low, high].expect(&rt, "memory");
    states(
        &rt,
        Command::DefineSet,
        r#"{"members":[[1,1,1],[6,1,999999999]],"set":5}"#,
        PolicyOp::DefineSet(ItemSet::new(5, two)),
    );
}

#[test]
fn bodies_that_state_the_greatest_set(rt: HostRuntime) {
    let greatest = vec![in rt.alloc(); ACCOUNT; 32].expect(&rt, "memory");
    states(
        &rt,
        Command::DefineSet,
        accounts_body(&rt, 32).as_str(),
        PolicyOp::DefineSet(ItemSet::new(1, greatest)),
    );
}

#[test]
fn bodies_that_state_an_enrolment(rt: HostRuntime) {
    let name = Name::new(rt.alloc(), " Olga O. Officer 12~").expect(&rt, "memory");
    states(
        &rt,
        Command::Enrol,
        r#"{"name":" Olga O. Officer 12~","officer":true,"user":9999}"#,
        PolicyOp::Enrol(Enrolment {
            user: 9_999,
            name,
            officer: true,
        }),
    );
}

/// Whether the bytes state nothing for the command.
fn is_none_stated(rt: &(impl Abort + AllocGlobal), command: Command, body: &[u8]) -> bool {
    let read = read_command(rt.alloc(), command, body).expect(rt, "memory");
    read.is_none()
}

#[test]
fn bodies_that_state_none(rt: HostRuntime) {
    let cases = [
        (Command::Suspend, ""),
        (Command::Suspend, "[7]"),
        (Command::Suspend, r#"{"user":7"#),
        (Command::Suspend, r#"{"user":7}}"#),
        (Command::Suspend, r#"{"user":7,"set":1}"#),
        (Command::Suspend, r#"{"User":7}"#),
        (Command::Suspend, r#"{"user":0}"#),
        (Command::Suspend, r#"{"user":10000}"#),
        (Command::Restore, r#"{"user":"7"}"#),
        (Command::Restore, r#"{"user":7.0}"#),
        (Command::Certify, r#"{"procedure":1,"set":1}"#),
        (Command::Certify, r#"{"procedure":"Post","set":1}"#),
        (Command::Certify, r#"{"procedure":"post"}"#),
        (Command::Withdraw, r#"{"procedure":"post","set":0}"#),
        (Command::Withdraw, r#"{"procedure":"post","user":1}"#),
        (
            Command::Grant,
            r#"{"limit":1000000000,"procedure":"post","set":1,"user":7}"#,
        ),
        (
            Command::Grant,
            r#"{"limit":-1,"procedure":"post","set":1,"user":7}"#,
        ),
        (Command::Grant, r#"{"procedure":"post","set":1,"user":7}"#),
        (
            Command::Revoke,
            r#"{"limit":1,"procedure":"post","set":1,"user":7}"#,
        ),
        (Command::Appoint, r#"{"procedure":"post","set":1}"#),
        (Command::Dismiss, r#"{"procedure":null,"user":1}"#),
    ];
    for (command, body) in cases {
        assert!(rt; is_none_stated(&rt, command, body.as_bytes()), "at {body}");
    }
    assert!(rt; is_none_stated(&rt, Command::Suspend, &[0xFF]));
}

#[test]
fn bodies_that_state_no_user(rt: HostRuntime) {
    for body in [
        r#"{"name":"","officer":true,"user":7}"#,
        r#"{"name":"123456789012345678901","officer":true,"user":7}"#,
        r#"{"name":"Ol\u001fga","officer":true,"user":7}"#,
        r#"{"name":"Ol\u007fga","officer":true,"user":7}"#,
        r#"{"name":"Zoë","officer":true,"user":7}"#,
        r#"{"name":7,"officer":true,"user":7}"#,
        r#"{"name":"Olga","officer":1,"user":7}"#,
        r#"{"name":"Olga","user":7}"#,
        r#"{"name":"Olga","officer":true,"on":true,"user":7}"#,
    ] {
        assert!(rt;
            is_none_stated(&rt, Command::Enrol, body.as_bytes()),
            "at {body}"
        );
    }
}

#[test]
fn bodies_that_state_no_set(rt: HostRuntime) {
    for body in [
        r#"{"members":[],"set":1}"#,
        r#"{"members":{"1":[1,1,1]},"set":1}"#,
        r#"{"members":[1,1,1],"set":1}"#,
        r#"{"members":[[0,1,1]],"set":1}"#,
        r#"{"members":[[7,1,1]],"set":1}"#,
        r#"{"members":[["account",1,1]],"set":1}"#,
        r#"{"members":[[1,0,1]],"set":1}"#,
        r#"{"members":[[1,2,1]],"set":1}"#,
        r#"{"members":[[1,1,1000000000]],"set":1}"#,
        r#"{"members":[[1,1]],"set":1}"#,
        r#"{"members":[[1,1,1,1]],"set":1}"#,
        r#"{"members":[[1,1,1],null],"set":1}"#,
        r#"{"members":[[1,1,1]],"set":0}"#,
    ] {
        assert!(rt;
            is_none_stated(&rt, Command::DefineSet, body.as_bytes()),
            "at {body}"
        );
    }
}

#[test]
fn a_greater_set_is_not_stated(rt: HostRuntime) {
    let greater = accounts_body(&rt, 33);
    assert!(rt; is_none_stated(&rt, Command::DefineSet, greater.as_bytes()));
}
