//! Which list and which record is named where records are bad.

ghost use Rattle.std.specs.Prelude.{◌<◌};

use crate::sample_lists::OPENING;
use list_opening::{ListFault, ListName, read_lists};
use std::alloc::Global;
use std::process::Abort;

/// The lists, in their order.
const NAMES: [ListName; 8] = [
    ListName::Branches,
    ListName::Tellers,
    ListName::Accounts,
    ListName::Users,
    ListName::Sets,
    ListName::Relations,
    ListName::Triples,
    ListName::Certifiers,
];

/// Their headings.
const HEADINGS: [&str; 8] = [
    "branch,balance,cash",
    "teller,branch,balance",
    "account,home,balance,floor",
    "user,name,officer",
    "set,kind,low,high",
    "procedure,set,by",
    "user,procedure,set,limit",
    "user,procedure",
];

/// Why the sample's lists state no World with this text in place of the list at that place, if they state none.
fn fault_with(alloc: Global, place: usize, text: &str) -> Option<ListFault>
    requires { place < 8 }
{
    let mut texts: [&[u8]; 8] = OPENING;
    texts[place] = text.as_bytes();
    read_lists(alloc, &texts).err()
}

/// The fault of the record of this number in the list at that place.
fn bad_row(place: usize, row: u64) -> Option<ListFault>
    requires { place < 8 }
{
    Some(ListFault::BadRow {
        file: NAMES[place],
        row,
    })
}

/// The heading of the list at this place, and this record.
fn with_record(rt: &impl Abort, alloc: Global, place: usize, record: &str) -> String
    requires { place < 8 }
{
    let heading = HEADINGS[place];
    format!(in alloc; "{heading}\n{record}\n").expect(rt, "memory")
}

#[test]
fn a_wrong_heading_is_record_1(rt: HostRuntime) {
    for (place, text) in [
        "branch,cash,balance\n1,100000,60000\n",
        "teller,branch\n11,1\n",
        "account,home,balance,floor,\n101,1,50000,0\n",
        "user,Name,officer\n1,Olga,1\n",
        "set, kind,low,high\n1,vault,1,1\n",
        "post,1,2\n",
        "user,procedure,set,limit,from\n7,post,2,999999,0\n",
        "",
    ]
    .iter()
    .enumerate()
    {
        assert!(rt; fault_with(rt.alloc(), place, text) == bad_row(place, 1));
    }
}

#[test]
fn a_bad_record_after_a_good_one_is_named(rt: HostRuntime) {
    for (place, text) in [
        "branch,balance,cash\n1,60000,100000\n2,20000x,50000\n3,x,0\n",
        "teller,branch,balance\n11,1,60000\n012,1,0\n",
        "account,home,balance,floor\n101,1,50000,0\n102,1,0,1\n",
        "user,name,officer\n1,Olga,1\n2,Carl,no\n",
        "set,kind,low,high\n1,account,1,1\n1,account,2,1\n",
        "procedure,set,by\npost,1,2\nPost,2,2\n",
        "user,procedure,set,limit\n7,post,2,999999\n7,post,1,1000000000\n",
        "user,procedure\n2,post\n0,transfer\n",
    ]
    .iter()
    .enumerate()
    {
        assert!(rt; fault_with(rt.alloc(), place, text) == bad_row(place, 3));
    }
}

#[test]
fn the_first_list_with_a_bad_record_is_named(rt: HostRuntime) {
    let mut texts: [&[u8]; 8] = OPENING;
    for place in (0..8).rev() {
        texts[place] = b"no heading\n";
        assert!(rt; read_lists(rt.alloc(), &texts).err() == bad_row(place, 1));
    }
}

#[test]
fn fields_out_of_their_form_or_range_are_bad(rt: HostRuntime) {
    for (place, record) in [
        (0, "1,-0,0"),
        (0, "1,+5,0"),
        (0, "1,,0"),
        (0, "1, 5,0"),
        (0, "1,00,0"),
        (0, "1,1000000000000,0"),
        (0, "1,0,-1000000000000"),
        (1, "0,1,0"),
        (1, "1000000000,1,0"),
        (1, "11,0,0"),
        (2, "101,1,0,-0"),
        (2, "101,1,0,-1000000000"),
        (3, "10000,Olga,1"),
        (3, "1,,1"),
        (3, "1,a name of 21 bytes ..,1"),
        (3, "1,Ol\tga,1"),
        (3, "1,José,1"),
        (3, "1,Olga,2"),
        (4, "1,safe,1,1"),
        (4, "0,vault,1,1"),
        (4, "1,vault,0,1"),
        (5, "post,1,10000"),
        (6, "7,post,2,-1"),
        (7, "2,open-drawer"),
    ] {
        let text = with_record(&rt, rt.alloc(), place, record);
        assert!(rt; fault_with(rt.alloc(), place, text.as_str()) == bad_row(place, 2));
    }
}

#[test]
fn fields_at_the_ends_of_their_ranges_are_good(rt: HostRuntime) {
    for (place, record) in [
        (0, "999999999,999999999999,-999999999999"),
        (1, "1,999999999,-999999999999"),
        (2, "1,1,0,-999999999"),
        (2, "1,1,-1,0"),
        (3, "9999, a name of 20 byte~,0"),
        (4, "999999999,vault,1,999999999"),
        (5, "close-day,999999999,9999"),
        (6, "1,accounts,1,999999999"),
        (6, "1,accounts,1,0"),
    ] {
        let text = with_record(&rt, rt.alloc(), place, record);
        assert!(rt; fault_with(rt.alloc(), place, text.as_str()).is_none());
    }
}

#[test]
fn what_is_printed_names_the_file_and_the_record(rt: HostRuntime) {
    for (place, due) in [
        "branches.csv, record 3",
        "tellers.csv, record 3",
        "accounts.csv, record 3",
        "users.csv, record 3",
        "sets.csv, record 3",
        "relations.csv, record 3",
        "triples.csv, record 3",
        "certifiers.csv, record 3",
    ]
    .iter()
    .enumerate()
    {
        let fault = bad_row(place, 3).expect(&rt, "a fault");
        let printed = format!(in rt.alloc(); "{fault}").expect(&rt, "memory");
        assert!(rt; printed.as_str() == *due);
    }
    let fault = ListFault::Memory;
    let printed = format!(in rt.alloc(); "{fault}").expect(&rt, "memory");
    assert!(rt; printed.as_str() == "memory");
}
