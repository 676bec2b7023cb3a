//! Changes of the policy inside a transaction, and a user's session: each makes of the World that the tables hold what its
//! definition says, or answers the fault that kept it from that.

ghost use Rattle.std.specs.Prelude.{◌≡◌, ◌<◌, ◌↔◌, ◌^◌, length, IfOk, IsTrue, OnOk};
ghost use Rattle.sqlite.specs.Held.{state};
ghost use Rattle.sqlite.specs.State.{HasCleanDisk};
ghost use Rattle.keyed_rows.specs.Ordered.{add_row};
ghost use Rattle.bank_policy.specs.declared.policy_write.PolicyWrite.TheVariants as policy;
ghost use Rattle.bank_books.specs.Effects.{written};
ghost use Rattle.bank_books.specs.declared.row_write.RowWrite.TheVariants as write;
ghost use Rattle.book_kept.specs.Changes.{add_rows};
ghost use Rattle.book_kept.specs.Named.{IsFree, IsUserRow};
ghost use Rattle.book_kept.specs.Records.{member_rows};
ghost use Rattle.book_kept.specs.Sheets.{Sheets, member_no, slip_no, user_no};
ghost use Rattle.sql_schema.specs.Held.{HoldsTables};
ghost use Rattle.sql_schema.specs.Steps.{Frame, Moves, Step, Tells};

use crate::required::required;
use bank_policy::{
    Certifier, ItemSet, Name, PolicyWrite, Relation, RelationKey, Session, Suspension, Triple,
    TripleKey, User,
};
use book_kept::{KeptUser, MemberRow, SlipCount};
use money::Fault;
use sqlite::{Alter, Transaction};
use std::alloc::Global;

/// A relation that is certified. One of its key that is there already is a fault of the disk.
fn write_relation<S: Alter>(tx: &mut Transaction<'_, S>, relation: &Relation) -> Result<(), Fault>
    ensures frame { Frame S.Store tx.old.conn tx.new.conn }
    ensures moves { Moves (state S.Store tx.old.conn.now) (state S.Store tx.new.conn.now) (written (write.Policy (policy.Relation relation.now))) result }
{
    sql_policy::add_relation(tx, relation)
}

/// A relation that is certified no longer, with its triples.
fn write_no_relation<S: Alter>(tx: &mut Transaction<'_, S>, key: &RelationKey) -> Result<(), Fault>
    ensures frame { Frame S.Store tx.old.conn tx.new.conn }
    ensures moves { Moves (state S.Store tx.old.conn.now) (state S.Store tx.new.conn.now) (written (write.Policy (policy.NoRelation key.now))) result }
{
    sql_policy::remove_relation(tx, key)
}

/// A triple that is given. One of its key that is there already is a fault of the disk, and so is one of no relation.
fn write_triple<S: Alter>(tx: &mut Transaction<'_, S>, triple: &Triple) -> Result<(), Fault>
    ensures frame { Frame S.Store tx.old.conn tx.new.conn }
    ensures moves { Moves (state S.Store tx.old.conn.now) (state S.Store tx.new.conn.now) (written (write.Policy (policy.Triple triple.now))) result }
{
    sql_policy::add_triple(tx, triple)
}

/// A triple that is taken back.
fn write_no_triple<S: Alter>(tx: &mut Transaction<'_, S>, key: &TripleKey) -> Result<(), Fault>
    ensures frame { Frame S.Store tx.old.conn tx.new.conn }
    ensures moves { Moves (state S.Store tx.old.conn.now) (state S.Store tx.new.conn.now) (written (write.Policy (policy.NoTriple key.now))) result }
{
    sql_policy::remove_triple(tx, key)
}

/// A new certifier. One who is there already is a fault of the disk.
fn write_certifier<S: Alter>(
    tx: &mut Transaction<'_, S>,
    certifier: &Certifier,
) -> Result<(), Fault>
    ensures frame { Frame S.Store tx.old.conn tx.new.conn }
    ensures moves { Moves (state S.Store tx.old.conn.now) (state S.Store tx.new.conn.now) (written (write.Policy (policy.Certifier certifier.now))) result }
{
    sql_policy::add_certifier(tx, certifier)
}

/// A certifier who is one no longer.
fn write_no_certifier<S: Alter>(
    tx: &mut Transaction<'_, S>,
    certifier: &Certifier,
) -> Result<(), Fault>
    ensures frame { Frame S.Store tx.old.conn tx.new.conn }
    ensures moves { Moves (state S.Store tx.old.conn.now) (state S.Store tx.new.conn.now) (written (write.Policy (policy.NoCertifier certifier.now))) result }
{
    sql_policy::remove_certifier(tx, certifier)
}

/// The user with no releases.
fn kept_user(alloc: Global, user: &User) -> Result<KeptUser, Fault>
    ensures { IfOk result (λ kept. kept ≡ record { row = user.now; releases = 0 }) }
{
    let name = Name::new(alloc, user.name.as_str())?;
    Ok(KeptUser {
        row: User {
            user: user.user,
            name,
            officer: user.officer,
            suspended: user.suspended,
            session: user.session,
            on: user.on,
        },
        releases: 0,
    })
}

/// A user with their count of slips, of which they have none.
fn put_user<S: Alter>(tx: &mut Transaction<'_, S>, kept: &KeptUser) -> Result<(), Fault>
    ensures step { Step S.Store tx.old.conn tx.new.conn (λ s. record s { users = add_row user_no kept.now s.users; slip_counts = add_row slip_no (record { user = kept.now.row.user; slips = 0 }) s.slip_counts }) result }
    ensures free { Tells (state S.Store tx.old.conn.now) (state S.Store tx.new.conn.now) (λ s. IsFree user_no s.users (user_no kept.now)) result }
{
    sql_policy::add_user(tx, kept)?;
    let count = SlipCount {
        user: kept.row.user,
        slips: 0,
    };
    sql_releases::add_slip_count(tx, &count)
}

/// A new user. One of the same number who is there already is a fault of the disk.
fn write_user<S: Alter>(
    alloc: Global,
    tx: &mut Transaction<'_, S>,
    user: &User,
) -> Result<(), Fault>
    ensures frame { Frame S.Store tx.old.conn tx.new.conn }
    ensures moves { Moves (state S.Store tx.old.conn.now) (state S.Store tx.new.conn.now) (written (write.Policy (policy.User user.now))) result }
{
    let kept = kept_user(alloc, user)?;
    put_user(tx, &kept)
}

/// The user of this number. One who isn't there is a fault of the disk.
pub(crate) fn user_row<S: Alter>(tx: &mut Transaction<'_, S>, user: u32) -> Result<KeptUser, Fault>
    ensures step { Step S.Store tx.old.conn tx.new.conn (λ s. s) result }
    ensures found { HasCleanDisk (state S.Store tx.new.conn.now) → (s : Sheets) → HoldsTables (state S.Store tx.old.conn.now).now s → IfOk result (IsUserRow s user) }
{
    required(sql_policy::user_of(tx, user)?)
}

/// A user's latest session. Where the user isn't there it is a fault of the disk.
pub fn write_session<S: Alter>(tx: &mut Transaction<'_, S>, session: &Session) -> Result<(), Fault>
    ensures frame { Frame S.Store tx.old.conn tx.new.conn }
    ensures moves { Moves (state S.Store tx.old.conn.now) (state S.Store tx.new.conn.now) (written (write.Session session.now)) result }
{
    let mut kept = user_row(tx, session.user)?;
    kept.row.session = session.session;
    kept.row.on = session.on;
    sql_policy::set_user(tx, &kept)
}

/// A user who is suspended or restored. Where the user isn't there it is a fault of the disk.
fn write_suspension<S: Alter>(
    tx: &mut Transaction<'_, S>,
    suspension: &Suspension,
) -> Result<(), Fault>
    ensures frame { Frame S.Store tx.old.conn tx.new.conn }
    ensures moves { Moves (state S.Store tx.old.conn.now) (state S.Store tx.new.conn.now) (written (write.Policy (policy.Suspended suspension.now))) result }
{
    let mut kept = user_row(tx, suspension.user)?;
    kept.row.suspended = suspension.suspended;
    kept.row.on = false;
    sql_policy::set_user(tx, &kept)
}

/// Whether `members` members have a place each, which is a number of 32 bits from 1 on.
fn has_places(members: usize) -> bool
    ensures { IsTrue result ↔ (members < 2 ^ 32) }
{
    members <= u32::MAX as usize
}

/// The members of a set, at places 1, 2 and so on. More of them than places go is a fault of size.
pub fn write_members<S: Alter>(tx: &mut Transaction<'_, S>, row: &ItemSet) -> Result<(), Fault>
    ensures step { Step S.Store tx.old.conn tx.new.conn (λ s. record s { members = add_rows member_no (member_rows row.now) s.members }) result }
    ensures few { OnOk result (length row.now.members < 2 ^ 32) }
{
    let set = row.set();
    let members = row.members();
    if !has_places(members.len()) {
        return Err(Fault::Size);
    }
    let mut place = 0;
    for member in members {
        place += 1;
        let placed = MemberRow {
            set,
            place,
            member: *member,
        };
        sql_policy::add_member(tx, &placed)?;
    }
    Ok(())
}

/// A new set with its members. One of its number that is there already is a fault of the disk.
fn write_set<S: Alter>(tx: &mut Transaction<'_, S>, row: &ItemSet) -> Result<(), Fault>
    ensures frame { Frame S.Store tx.old.conn tx.new.conn }
    ensures moves { Moves (state S.Store tx.old.conn.now) (state S.Store tx.new.conn.now) (written (write.Policy (policy.Set row.now))) result }
{
    sql_policy::add_set(tx, row.set())?;
    write_members(tx, row)
}

/// One change of the policy. A key that is there already, or a user who isn't, is a fault of the disk.
pub fn write_policy<S: Alter>(
    alloc: Global,
    tx: &mut Transaction<'_, S>,
    change: &PolicyWrite,
) -> Result<(), Fault>
    ensures frame { Frame S.Store tx.old.conn tx.new.conn }
    ensures moves { Moves (state S.Store tx.old.conn.now) (state S.Store tx.new.conn.now) (written (write.Policy change.now)) result }
{
    match change {
        PolicyWrite::User(user) => write_user(alloc, tx, user),
        PolicyWrite::Set(row) => write_set(tx, row),
        PolicyWrite::Relation(relation) => write_relation(tx, relation),
        PolicyWrite::NoRelation(key) => write_no_relation(tx, key),
        PolicyWrite::Triple(triple) => write_triple(tx, triple),
        PolicyWrite::NoTriple(key) => write_no_triple(tx, key),
        PolicyWrite::Certifier(certifier) => write_certifier(tx, certifier),
        PolicyWrite::NoCertifier(certifier) => write_no_certifier(tx, certifier),
        PolicyWrite::Suspended(suspension) => write_suspension(tx, suspension),
    }
}
