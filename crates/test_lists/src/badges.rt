//! Lists of badges.

use list_opening::{RecordFault, read_badges};
use std::test::Fail;

#[test]
fn badges_name_their_users(rt: HostRuntime) -> Result<(), Fail> {
    let text = b"badge,user\r\ntess,7\r\nTess,8\r\n\"a,b\",9999\r\ncard-7,7\r\n!,1";
    let badges = read_badges(rt.alloc(), text)?;
    for (badge, user) in [
        ("tess", Some(7)),
        ("Tess", Some(8)),
        ("a,b", Some(9_999)),
        ("card-7", Some(7)),
        ("!", Some(1)),
        ("tes", None),
        ("tess7", None),
        ("badge", None),
        ("", None),
    ] {
        assert!(rt; badges.user_of(badge.as_bytes()) == user);
    }
    Ok(())
}

#[test]
fn the_first_bad_record_is_named(rt: HostRuntime) {
    for (text, row) in [
        (b"".as_slice(), 1),
        (b"user,badge\n7,tess\n", 1),
        (b"badge,users\ntess,7\n", 1),
        (b"badge,user\ntess,7\ntom,8\ntess,7\ntom\n", 4),
        (b"badge,user\ntess,7\ntess,8\n", 3),
        (b"badge,user\ntess,0\n", 2),
        (b"badge,user\ntess,10000\n", 2),
        (b"badge,user\ntess,07\n", 2),
        (b"badge,user\n,7\n", 2),
        (b"badge,user\ntess ,7\n", 2),
        (b"badge,user\ntess\x7f,7\n", 2),
        (b"badge,user\ntess,7,\n", 2),
    ] {
        assert!(rt; read_badges(rt.alloc(), text).err() == Some(RecordFault::Bad(row)));
    }
}

#[test]
fn a_badge_has_64_bytes_at_most(rt: HostRuntime) -> Result<(), Fail> {
    let bytes = [b'b'; 65];
    for (count, good) in [(1, true), (64, true), (65, false)] {
        let mut text = Vec::from_slice(rt.alloc(), b"badge,user\n")?;
        text.extend_from_slice(&bytes[..count])?;
        text.extend_from_slice(b",7\n")?;
        assert!(rt; read_badges(rt.alloc(), &text).is_ok() == good);
    }
    Ok(())
}

#[test]
fn what_is_printed_names_the_record(rt: HostRuntime) -> Result<(), Fail> {
    let (bad, memory) = (RecordFault::Bad(3), RecordFault::Memory);
    let printed = format!(in rt.alloc(); "{bad}; {memory}")?;
    assert!(rt; printed.as_str() == "record 3; memory");
    Ok(())
}
