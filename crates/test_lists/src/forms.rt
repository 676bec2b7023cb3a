//! How the comma-separated values of a list may be written, and the order of its records.

ghost use Rattle.std.specs.Prelude.{◌<◌};

use crate::sample_lists::{BRANCHES, OPENING};
use bank_books::World;
use bank_policy::{Kind, Member};
use list_opening::{ListFault, ListName, read_lists};
use std::alloc::Global;
use std::test::Fail;

/// What the sample's lists state with this text in place of the list at that place.
fn read_with(alloc: Global, place: usize, text: &[u8]) -> Result<World, ListFault>
    requires { place < 8 }
{
    let mut texts: [&[u8]; 8] = OPENING;
    texts[place] = text;
    read_lists(alloc, &texts)
}

#[test]
fn the_same_branches_are_written_in_many_ways(rt: HostRuntime) -> Result<(), Fail> {
    let due = read_with(rt.alloc(), 0, BRANCHES)?;
    for text in [
        b"branch,balance,cash\r\n1,60000,100000\r\n2,20000,50000\r\n".as_slice(),
        b"branch,balance,cash\r1,60000,100000\r2,20000,50000",
        b"branch,balance,cash\n1,60000,100000\n2,20000,50000",
        b"\n\nbranch,balance,cash\n\r\n\n1,60000,100000\n\n2,20000,50000\n\n",
        b"\xef\xbb\xbfbranch,balance,cash\n1,60000,100000\n2,20000,50000\n",
        b"\"branch\",balance,\"cash\"\n1,\"60000\",100000\n\"2\",\"20000\",\"50000\"\n",
        b"branch,balance,cash\n1,60000,100000\n2,20000,\"50000",
        b"branch,balance,cash\n2,20000,50000\n1,60000,100000\n",
    ] {
        let world = read_with(rt.alloc(), 0, text)?;
        assert!(rt; world.branches() == due.branches());
    }
    Ok(())
}

#[test]
fn blank_lines_are_not_counted(rt: HostRuntime) {
    for (text, row) in [
        (
            b"\nbranch,balance,cash\n\n\n1,60000,100000\n\n2,20000,\n".as_slice(),
            3,
        ),
        (b"\n\r\n\n", 1),
        (b"\xef\xbb\xbf", 1),
        (b"branch,balance,cash\n \n", 2),
    ] {
        let fault = read_with(rt.alloc(), 0, text).err();
        let file = ListName::Branches;
        assert!(rt; fault == Some(ListFault::BadRow { file, row }));
    }
}

#[test]
fn records_of_another_length_are_bad(rt: HostRuntime) {
    for (text, row) in [
        (
            b"branch,balance,cash\n1,60000,100000\n2,20000\n".as_slice(),
            3,
        ),
        (b"branch,balance,cash\n1,60000,100000,\n", 2),
        (b"branch,balance,cash\n1,\"60000,100000\n2,20000,50000\n", 2),
        (b"branch,balance,cash\n1,\"60000\n\",100000\n", 2),
    ] {
        let fault = read_with(rt.alloc(), 0, text).err();
        let file = ListName::Branches;
        assert!(rt; fault == Some(ListFault::BadRow { file, row }));
    }
}

#[test]
fn a_heading_alone_states_no_rows(rt: HostRuntime) -> Result<(), Fail> {
    let world = read_with(rt.alloc(), 0, b"branch,balance,cash")?;
    assert!(rt; world.branches().is_empty());
    Ok(())
}

#[test]
fn a_name_may_hold_commas_and_quotes(rt: HostRuntime) -> Result<(), Fail> {
    let text = b"user,name,officer\n2,\"Roe, \"\"Jo\"\"\",0\n1, Olga~,1\n";
    let world = read_with(rt.alloc(), 3, text)?;
    let users = world.policy().users();
    assert!(rt; users.len() == 2);
    for (user, (number, name)) in users.iter().zip([(1, " Olga~"), (2, "Roe, \"Jo\"")]) {
        assert!(rt; user.user == number);
        assert!(rt; user.name.as_str() == name);
    }
    Ok(())
}

#[test]
fn users_of_one_number_stay_in_the_order_of_their_records(rt: HostRuntime) -> Result<(), Fail> {
    let text = b"user,name,officer\n2,b,0\n1,c,0\n2,a,1\n";
    let world = read_with(rt.alloc(), 3, text)?;
    let users = world.policy().users();
    assert!(rt; users.len() == 3);
    for (user, (number, name)) in users.iter().zip([(1, "c"), (2, "b"), (2, "a")]) {
        assert!(rt; user.user == number);
        assert!(rt; user.name.as_str() == name);
    }
    Ok(())
}

#[test]
fn members_of_a_set_may_stand_apart(rt: HostRuntime) -> Result<(), Fail> {
    let text =
        b"set,kind,low,high\n2,teller,11,12\n1,account,5,5\n2,account,1,9\n1,history,7,7\n1,account,1,4\n";
    let world = read_with(rt.alloc(), 4, text)?;
    let sets = world.policy().sets();
    let member = |kind, low, high| Member { kind, low, high };
    let first = [
        member(Kind::Account, 5, 5),
        member(Kind::History, 7, 7),
        member(Kind::Account, 1, 4),
    ];
    let second = [member(Kind::Teller, 11, 12), member(Kind::Account, 1, 9)];
    assert!(rt; sets.len() == 2);
    for (set, (number, members)) in sets
        .iter()
        .zip([(1, first.as_slice()), (2, second.as_slice())])
    {
        assert!(rt; set.set() == number);
        assert!(rt; set.members() == members);
    }
    Ok(())
}
