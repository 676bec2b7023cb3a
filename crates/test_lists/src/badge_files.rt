//! Lists of badges in files. No clause ties what is read to the file of a path, so what is printed of the badges is
//! compared with the rows of the list that was written there: each of them, and no others.

use cli_file::{ActionFault, MachineLists, read_badge_list};
use list_opening::read_badges;
use std::fs;
use std::test::Fail;

#[test]
fn badges_of_a_file_are_its_rows_and_no_others(rt: HostRuntime) -> Result<(), Fail> {
    let path = "badges_of_good_lists.csv";
    for (text, rows) in [
        (b"badge,user\n".as_slice(), "[]"),
        (b"badge,user", "[]"),
        (b"badge,user\n!,7", "[Badge { badge: [33], user: 7 }]"),
        (b"badge,user\n!,7\n", "[Badge { badge: [33], user: 7 }]"),
        (
            b"badge,user\r\n\r\n!!,9999\r\n\"!,\",1\r\n!,9999\r\n\r\n",
            "[Badge { badge: [33, 33], user: 9999 }, Badge { badge: [33, 44], user: 1 }, Badge { badge: [33], user: 9999 }]",
        ),
    ] {
        fs::write(&rt, path, text)?;
        let printed = format!(in rt.alloc();
            "{:?}",
            read_badge_list(rt.alloc(), &MachineLists { rt: &rt }, path)?
        )?;
        let due = format!(in rt.alloc(); "Badges {{ badges: {rows} }}")?;
        assert_eq!(rt; printed.as_str(), due.as_str());
        let stated = format!(in rt.alloc(); "{:?}", read_badges(rt.alloc(), text)?)?;
        assert_eq!(rt; printed.as_str(), stated.as_str());
    }
    fs::remove_file(&rt, path)?;
    Ok(())
}

#[test]
fn files_of_other_badges_are_refused(rt: HostRuntime) -> Result<(), Fail> {
    let path = "badges_of_bad_lists.csv";
    for (text, row) in [
        (b"".as_slice(), 1),
        (b"user,badge\n7,tess\n", 1),
        (b"badge,user\ntess,7\ntess,8\n", 3),
        (b"badge,user\ntess,7\ntom,0", 3),
    ] {
        fs::write(&rt, path, text)?;
        let due = ActionFault::Badge { list: path, row };
        assert!(rt;
            read_badge_list(rt.alloc(), &MachineLists { rt: &rt }, path).err() == Some(due)
        );
    }
    fs::remove_file(&rt, path)?;
    assert!(rt;
        read_badge_list(rt.alloc(), &MachineLists { rt: &rt }, path).err()
            == Some(ActionFault::NotRead)
    );
    Ok(())
}
