//! The members of sets in their table, in order of their places.

ghost use Rattle.std.specs.Prelude.{◌≡◌, ◌^◌, ◌<◌, ◌∷◌, [], pos, map, IfOk};
ghost use Rattle.std.specs.List.{filter};
ghost use Rattle.sqlite.specs.Held.{state};
ghost use Rattle.sqlite.specs.declared.types.Value.TheVariants.{Int};
ghost use Rattle.keyed_rows.specs.Ordered.{add_row};
ghost use Rattle.book_kept.specs.Named.{IsFree};
ghost use Rattle.book_kept.specs.Sheets.{member_no};
ghost use Rattle.sql_schema.specs.Steps.{FindsHeld, Frame, Reads, RunsInside, Step, Tells};
ghost use Rattle.sql_policy.specs.Tests.{is_member_of};
ghost use Rattle.sql_policy.specs.Texts.{add_member_text};

use bank_policy::Member;
use book_kept::MemberRow;
use money::Fault;
use sql_schema::{kind_number, listed, run, select_members};
use sqlite::{Alter, Transaction, params};
use std::alloc::Global;

/// The members in these rows.
fn members_at(alloc: Global, rows: &[MemberRow]) -> Result<Vec<Member>, Fault>
    ensures { IfOk result (λ list. list.items ≡ map (λ m. m.member) rows.now) }
{
    let mut list = Vec::new(alloc);
    for row in rows {
        list.push(row.member)?;
    }
    Ok(list)
}

/// The members of this set, in order; none where there is no such set.
pub fn members_of<S: Alter>(
    alloc: Global,
    tx: &mut Transaction<'_, S>,
    set: u32,
) -> Result<Vec<Member>, Fault>
    ensures reads { Reads S.Store tx.old.conn tx.new.conn result }
    ensures found { FindsHeld (state S.Store tx.old.conn.now) (state S.Store tx.new.conn.now) result (λ s members. members.items ≡ map (λ m. m.member) (filter (is_member_of set) s.members)) }
{
    let rows = listed(
        tx,
        select_members!("WHERE set_no = ?1 ORDER BY place"),
        params![set],
    )?;
    members_at(alloc, &rows)
}

fn insert_member<S: Alter>(
    tx: &mut Transaction<'_, S>,
    member: &MemberRow,
    kind: u32,
) -> Result<usize, Fault>
    ensures frame { Frame S.Store tx.old.conn tx.new.conn }
    ensures runs { RunsInside add_member_text (Int (pos member.now.set) ∷ Int (pos member.now.place) ∷ Int (pos kind) ∷ Int (pos member.now.member.low) ∷ Int (pos member.now.member.high) ∷ []) (state S.Store tx.old.conn.now) (state S.Store tx.new.conn.now) result }
    ensures small { member.now.place < 2 ^ 32 }
{
    run(
        tx,
        "INSERT INTO members (set_no, place, kind, low, high) VALUES (?1, ?2, ?3, ?4, ?5)",
        params![
            member.set,
            member.place,
            kind,
            member.member.low,
            member.member.high
        ],
    )
}

/// Adds a member of a set at its place. One that is there already is a fault of the disk.
pub fn add_member<S: Alter>(tx: &mut Transaction<'_, S>, member: &MemberRow) -> Result<(), Fault>
    ensures step { Step S.Store tx.old.conn tx.new.conn (λ s. record s { members = add_row member_no member.now s.members }) result }
    ensures free { Tells (state S.Store tx.old.conn.now) (state S.Store tx.new.conn.now) (λ s. IsFree member_no s.members (member_no member.now)) result }
{
    let kind = kind_number(member.member.kind);
    insert_member(tx, member, kind)?;
    Ok(())
}
