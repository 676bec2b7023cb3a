//! Bodies of operations: which operation each states, and bytes that state none.

use bank_terms::Procedure;
use bodies::read_op;
use counter_ops::{
    Accounts, Balance, CloseDay, Correct, DrawerOff, DrawerOn, MoveCash, NewAccount, Op, Post,
    Proof, Releasable, Release, Statement, Transfer,
};
use money::{Cents, Delta};
use std::process::Abort;

/// A post at the sample's teller 11.
fn post_at_11(account: u32, delta: Delta) -> Op {
    Op::Post(Post {
        account,
        branch: 1,
        delta,
        teller: 11,
    })
}

/// The body states this operation.
fn states(rt: &(impl Abort + AllocGlobal), procedure: Procedure, body: &str, op: Op) {
    let read = read_op(rt.alloc(), procedure, body.as_bytes()).expect(rt, "memory");
    assert!(rt; read == Some(op), "at {body}");
}

#[test]
fn bodies_that_state_a_posting(rt: HostRuntime) {
    let added = Delta::new(2_500).expect(&rt, "in range");
    let most = Delta::new(999_999).expect(&rt, "in range");
    let least = Delta::new(-999_999).expect(&rt, "in range");
    let transfer = Transfer {
        source: 101,
        target: 999_999_999,
        teller: 11,
        branch: 1,
        amount: 999_999,
    };
    let correct = Correct {
        branch: 1,
        entry: 1,
        account: 101,
        other: 0,
        teller: 11,
        delta: least,
    };
    let release = Release {
        beneficiary: 9_999,
        operation: Releasable::Transfer(transfer),
    };
    let cases = [
        (
            Procedure::Post,
            r#"{"account":101,"branch":1,"delta":2500,"teller":11}"#,
            post_at_11(101, added),
        ),
        (
            Procedure::Post,
            r#" {"teller":11 , "delta":-999999,"branch" : 1,"account":1}"#,
            post_at_11(1, least),
        ),
        (
            Procedure::Post,
            r#"{"account":0,"account":101,"branch":1,"delta":999999,"teller":11}"#,
            post_at_11(101, most),
        ),
        (
            Procedure::Transfer,
            r#"{"amount":999999,"branch":1,"source":101,"target":999999999,"teller":11}"#,
            Op::Transfer(transfer),
        ),
        (
            Procedure::Correct,
            r#"{"account":101,"branch":1,"delta":-999999,"entry":1,"other":0,"teller":11}"#,
            Op::Correct(correct),
        ),
        (
            Procedure::Release,
            r#"{"beneficiary":9999,"operation":{"procedure":"transfer","amount":999999,"branch":1,"source":101,"target":999999999,"teller":11}}"#,
            Op::Release(release),
        ),
    ];
    for (procedure, body, op) in cases {
        states(&rt, procedure, body, op);
    }
}

#[test]
fn bodies_that_state_another_operation(rt: HostRuntime) {
    let counted = Cents::new(999_999_999_999).expect(&rt, "in range");
    let cases = [
        (
            Procedure::DrawerOn,
            r#"{"branch":1,"cash":999999999,"teller":11}"#,
            Op::DrawerOn(DrawerOn {
                teller: 11,
                branch: 1,
                cash: 999_999_999,
            }),
        ),
        (
            Procedure::DrawerOff,
            r#"{"branch":1,"counted":999999999999,"teller":11}"#,
            Op::DrawerOff(DrawerOff {
                teller: 11,
                branch: 1,
                counted,
            }),
        ),
        (
            Procedure::MoveCash,
            r#"{"amount":1,"branch":1,"source":0,"target":11}"#,
            Op::MoveCash(MoveCash {
                source: 0,
                target: 11,
                branch: 1,
                amount: 1,
            }),
        ),
        (
            Procedure::NewAccount,
            r#"{"account":103,"branch":1,"floor":-999999999}"#,
            Op::NewAccount(NewAccount {
                account: 103,
                branch: 1,
                floor: -999_999_999,
            }),
        ),
        (
            Procedure::Balance,
            r#"{"account":101}"#,
            Op::Balance(Balance { account: 101 }),
        ),
        (
            Procedure::Statement,
            r#"{"account":101,"count":1000,"start":1}"#,
            Op::Statement(Statement {
                account: 101,
                start: 1,
                count: 1_000,
            }),
        ),
        (
            Procedure::Accounts,
            r#"{"after":0,"count":1}"#,
            Op::Accounts(Accounts { after: 0, count: 1 }),
        ),
        (
            Procedure::Proof,
            r#"{"branch":1}"#,
            Op::Proof(Proof { branch: 1 }),
        ),
        (
            Procedure::CloseDay,
            r#"{"branch":2}"#,
            Op::CloseDay(CloseDay { branch: 2 }),
        ),
    ];
    for (procedure, body, op) in cases {
        states(&rt, procedure, body, op);
    }
}

/// Whether the bytes state no operation.
fn is_none_stated(rt: &(impl Abort + AllocGlobal), procedure: Procedure, body: &[u8]) -> bool {
    let read = read_op(rt.alloc(), procedure, body).expect(rt, "memory");
    read.is_none()
}

#[test]
fn bodies_that_state_none(rt: HostRuntime) {
    let cases = [
        (Procedure::Balance, ""),
        (Procedure::Balance, "null"),
        (Procedure::Balance, "[101]"),
        (Procedure::Balance, r#"{"account":101"#),
        (Procedure::Balance, r#"{"account":101}}"#),
        (Procedure::Balance, r#"{"account":101,"branch":1}"#),
        (Procedure::Balance, r#"{"Account":101}"#),
        (Procedure::Balance, r#"{"account":null}"#),
        (Procedure::Balance, r#"{"account":"101"}"#),
        (Procedure::Balance, r#"{"account":101.0}"#),
        (Procedure::Balance, r#"{"account":1e2}"#),
        (Procedure::Balance, r#"{"account":0}"#),
        (Procedure::Balance, r#"{"account":-101}"#),
        (Procedure::Balance, r#"{"account":1000000000}"#),
        (Procedure::Balance, r#"{"account":4294967397}"#),
        (
            Procedure::Post,
            r#"{"account":101,"branch":1,"delta":2500}"#,
        ),
        (
            Procedure::Post,
            r#"{"account":101,"branch":1,"delta":2500,"procedure":"post","teller":11}"#,
        ),
        (
            Procedure::Post,
            r#"{"account":101,"branch":1,"delta":1000000,"teller":11}"#,
        ),
        (
            Procedure::Post,
            r#"{"account":101,"branch":1,"delta":-1000000,"teller":11}"#,
        ),
        (
            Procedure::Post,
            r#"{"account":101,"branch":1,"delta":-0,"teller":11}"#,
        ),
        (
            Procedure::Post,
            r#"{"account":101,"branch":1,"delta":9223372036854775808,"teller":11}"#,
        ),
        (
            Procedure::Transfer,
            r#"{"amount":1,"branch":1,"source":101,"target":101,"teller":11}"#,
        ),
        (
            Procedure::Transfer,
            r#"{"amount":0,"branch":1,"source":101,"target":102,"teller":11}"#,
        ),
        (
            Procedure::Correct,
            r#"{"account":101,"branch":1,"delta":1,"entry":1,"other":101,"teller":11}"#,
        ),
        (
            Procedure::DrawerOff,
            r#"{"branch":1,"counted":-1,"teller":11}"#,
        ),
        (
            Procedure::MoveCash,
            r#"{"amount":1,"branch":1,"source":0,"target":0}"#,
        ),
        (
            Procedure::NewAccount,
            r#"{"account":103,"branch":1,"floor":1}"#,
        ),
        (
            Procedure::Statement,
            r#"{"account":101,"count":1001,"start":1}"#,
        ),
        (
            Procedure::Release,
            r#"{"beneficiary":8,"operation":{"account":101,"branch":1,"delta":1,"teller":11}}"#,
        ),
        (
            Procedure::Release,
            r#"{"beneficiary":8,"operation":{"procedure":"balance","account":101}}"#,
        ),
        (
            Procedure::Release,
            r#"{"beneficiary":10000,"operation":{"procedure":"drawer-on","branch":1,"cash":0,"teller":11}}"#,
        ),
    ];
    for (procedure, body) in cases {
        assert!(rt;
            is_none_stated(&rt, procedure, body.as_bytes()),
            "at {body}"
        );
    }
    assert!(rt; is_none_stated(&rt, Procedure::Balance, &[0xFF]));
}
