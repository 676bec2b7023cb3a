//! Sets with their members, taken in order from the one table of all members.

ghost use Rattle.std.specs.Prelude.{◌≡◌, ◌==◌, ◌≤◌, drop, length, map, take, IfOk, IfSome, List, Some};
ghost use Rattle.std.specs.List.{enumerate_from};
ghost use Rattle.std.specs.Option.{IsSomeAnd};
ghost use Rattle.keyed_rows.specs.Ordered.{AreDistinct};
ghost use Rattle.bank_policy.specs.SetRow.{SetRow};
ghost use Rattle.bank_policy.specs.declared.rows.Member.{Member};
ghost use Rattle.book_kept.specs.Records.{member_row};
ghost use Rattle.sql_adopt.specs.ReadBack.{AreInFront, AreSetsOf};

use bank_policy::{ItemSet, Member};
use book_kept::MemberRow;
use money::Fault;
use std::alloc::Global;

/// The sets of these numbers with their members, or none where a member is not at its place: they
/// stand by set, and in each set at the places 1, 2, 3 and so on. Sets with numbers that differ are found
/// from their members.
pub(crate) fn item_sets(
    alloc: Global,
    sets: &[u32],
    members: &[MemberRow],
) -> Result<Option<Vec<ItemSet>>, Fault>
    ensures stated { IfOk result (λ found. IfSome found (λ list. AreSetsOf sets.now members.now list.items)) }
    ensures found { (own : List SetRow) → AreSetsOf sets.now members.now own → AreDistinct sets.now → IfOk result (λ found. IsSomeAnd found (λ list. list.items ≡ own)) }
{
    let mut list = Vec::with_capacity(alloc, sets.len())?;
    let mut at = 0usize;
    for set in sets {
        let rest = following(members, at);
        match own_members(alloc, *set, rest)? {
            Some(own) => {
                at += own.len();
                list.push(ItemSet::new(*set, own))?;
            }
            None => return Ok(None),
        }
    }
    if at == members.len() {
        Ok(Some(list))
    } else {
        Ok(None)
    }
}

/// The rows from this place on.
fn following(members: &[MemberRow], at: usize) -> &[MemberRow]
    requires { at ≤ length members.now }
    ensures { result.now ≡ drop at members.now }
{
    &members[at..]
}

/// The members of this set that stand in front, or none where one is not at its place.
fn own_members(alloc: Global, set: u32, rows: &[MemberRow]) -> Result<Option<Vec<Member>>, Fault>
    ensures front { IfOk result (λ found. IfSome found (λ own. take (length own.items) rows.now ≡ map (member_row set) (enumerate_from 1 own.items))) }
    ensures within { IfOk result (λ found. IfSome found (λ own. length own.items ≤ length rows.now)) }
    ensures found { (members : List Member) → AreInFront set rows.now members → IfOk result (λ found. IsSomeAnd found (λ own. own.items ≡ members)) }
{
    let mut own = Vec::new(alloc);
    for row in rows {
        if !is_of(row, set) {
            return Ok(Some(own));
        }
        match placed(row, set, own.len() + 1) {
            Some(member) => own.push(member)?,
            None => return Ok(None),
        }
    }
    Ok(Some(own))
}

fn is_of(row: &MemberRow, set: u32) -> bool
    ensures { result ≡ (row.now.set == set) }
{
    row.set == set
}

/// The member that this row has at that place of the set, or none where it is at another.
fn placed(row: &MemberRow, set: u32, place: usize) -> Option<Member>
    ensures stated { IfSome result (λ member. row.now ≡ member_row set (place, member)) }
    ensures found { (member : Member) → row.now ≡ member_row set (place, member) → result ≡ Some member }
{
    if row.set == set && row.place as usize == place {
        Some(row.member)
    } else {
        None
    }
}
