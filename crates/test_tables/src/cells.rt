//! Columns of a row, and what is written to one.

use crate::compare::same;
use bank_terms::{Kind, Procedure};
use money::Fault;
use sql_schema::{cents_at, count_at, kind_at, number_at, procedure_at, truth_at, whole_at};
use sqlite::{Connection, Row};
use std::alloc::Global;
use std::process::Abort;

/// A row of these columns.
fn row(rt: &impl Abort, alloc: Global) -> Row {
    let mut conn = Connection::open_in_memory(alloc).expect(rt, "memory");
    conn.query_row("SELECT 5, -7, 1, 'name', 8000000000", &[])
        .expect(rt, "a row")
}

#[test]
fn columns_are_read_as_what_they_represent(rt: HostRuntime) {
    let row = row(&rt, rt.alloc());
    same(&rt, number_at(&row, 0), Ok(5));
    same(&rt, count_at(&row, 0), Ok(5));
    same(&rt, whole_at(&row, 1), Ok(-7));
    same(&rt, number_at(&row, 1), Err(Fault::Disk));
    same(&rt, procedure_at(&row, 0), Ok(Procedure::DrawerOff));
    same(&rt, kind_at(&row, 0), Ok(Kind::Drawer));
    same(&rt, truth_at(&row, 2), Ok(true));
    same(&rt, truth_at(&row, 0), Err(Fault::Disk));
    same(&rt, number_at(&row, 3), Err(Fault::Disk));
    same(&rt, number_at(&row, 4), Err(Fault::Disk));
    same(&rt, cents_at(&row, 1).expect(&rt, "cents").get(), -7);
}
