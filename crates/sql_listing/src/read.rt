//! Rows of the policy's tables read as lines.

ghost use Rattle.std.specs.Prelude.{◌≡◌, ◌++◌, Contains, List, map, IfOk, OnOk};
ghost use Rattle.sql_listing.specs.Lines.{FitsOf, RowOf, cells_of, line_of};

use crate::kinds::LineKind;
use bank_policy::{Certifier, Relation, Triple};
use book_kept::{KeptUser, MemberRow};
use money::Fault;
use sql_schema::TableRow;
use sqlite::Row;
use std::alloc::Global;
use world_reads::{PolicyRow, SetMember};

fn placed(row: MemberRow) -> SetMember
    ensures { result ≡ record { set = row.set; place = row.place; member = row.member } }
{
    SetMember {
        set: row.set,
        place: u64::from(row.place),
        member: row.member,
    }
}

/// The line of this kind that a row shows.
pub(crate) fn read_line(alloc: Global, kind: LineKind, row: &Row) -> Result<PolicyRow, Fault>
    ensures { IfOk result (λ line. (there : RowOf kind) → FitsOf kind there → row.now ≡ cells_of kind there → line ≡ line_of kind there) }
{
    match kind {
        LineKind::User => Ok(PolicyRow::User(KeptUser::read(alloc, row)?.row)),
        LineKind::Certifier => Ok(PolicyRow::Certifier(Certifier::read(alloc, row)?)),
        LineKind::Member => Ok(PolicyRow::Member(placed(MemberRow::read(alloc, row)?))),
        LineKind::Relation => Ok(PolicyRow::Relation(Relation::read(alloc, row)?)),
        LineKind::Triple => Ok(PolicyRow::Triple(Triple::read(alloc, row)?)),
    }
}

/// Adds the lines of this kind that these rows show.
pub(crate) fn read_lines(
    alloc: Global,
    kind: LineKind,
    rows: &[Row],
    lines: &mut Vec<PolicyRow>,
) -> Result<(), Fault>
    ensures { OnOk result ((there : List (RowOf kind)) → ((x : RowOf kind) → Contains there x → FitsOf kind x) → rows.now ≡ map (cells_of kind) there → lines.new.items ≡ lines.old.items ++ map (line_of kind) there) }
{
    for row in rows {
        lines.push(read_line(alloc, kind, row)?)?;
    }
    Ok(())
}
