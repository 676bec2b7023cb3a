//! Rows that queries show, read as what they are.

ghost use Rattle.std.specs.Prelude.{◌≡◌, Contains, List, map, option_map, slice_get, IfOk, Option, Some};
ghost use Rattle.sqlite.specs.Held.{state};
ghost use Rattle.sqlite.specs.Given.{IsPlain};
ghost use Rattle.sqlite.specs.Listing.{understood};
ghost use Rattle.sqlite.specs.Order.{Row as Cells};
ghost use Rattle.sqlite.specs.State.{HasCleanDisk, Shown};
ghost use Rattle.sqlite.specs.Values.{bound};
ghost use Rattle.sql_schema.specs.Schema.{bank_schema};
ghost use Rattle.sql_schema.specs.Steps.{Reads};

use crate::calls::shown_rows;
use crate::table_row::{TableRow, read_rows};
use money::Fault;
use sqlite::types::ValueRef;
use sqlite::{Alter, Row, Transaction};

/// The rows that a plain query shows, which changes nothing.
pub fn plain_rows<S: Alter>(
    tx: &mut Transaction<'_, S>,
    sql: &str,
    params: &[ValueRef<'_>],
) -> Result<Vec<Row>, Fault>
    requires { IsPlain (understood bank_schema sql.now) }
    ensures reads { Reads S.Store tx.old.conn tx.new.conn result }
    ensures rows { HasCleanDisk (state S.Store tx.new.conn.now) → IfOk result (λ rows. Shown sql.now (bound params.now) (state S.Store tx.old.conn.now) (state S.Store tx.new.conn.now) rows.items) }
{
    shown_rows(tx, sql, params)
}

/// The first row that a query shows, or none where it shows none. A row that can't be read is a fault of the disk.
pub fn picked<S: Alter, T: TableRow + Drop>(
    tx: &mut Transaction<'_, S>,
    sql: &str,
    params: &[ValueRef<'_>],
) -> Result<Option<T>, Fault>
    requires { IsPlain (understood bank_schema sql.now) }
    ensures reads { Reads S.Store tx.old.conn tx.new.conn result }
    ensures found { HasCleanDisk (state S.Store tx.new.conn.now) → (there : Option T) → ((x : T) → there ≡ Some x → T.fits x) → ((rows : List Cells) → Shown sql.now (bound params.now) (state S.Store tx.old.conn.now) (state S.Store tx.new.conn.now) rows → slice_get rows 0 ≡ option_map T.shown there) → IfOk result (λ found. found ≡ there) }
{
    let rows = plain_rows(tx, sql, params)?;
    match rows.first() {
        Some(row) => Ok(Some(T::read(*rows.allocator(), row)?)),
        None => Ok(None),
    }
}

/// All rows that a query shows, in their order. One that can't be read is a fault of the disk.
pub fn listed<S: Alter, T: TableRow + Drop>(
    tx: &mut Transaction<'_, S>,
    sql: &str,
    params: &[ValueRef<'_>],
) -> Result<Vec<T>, Fault>
    requires { IsPlain (understood bank_schema sql.now) }
    ensures reads { Reads S.Store tx.old.conn tx.new.conn result }
    ensures found { HasCleanDisk (state S.Store tx.new.conn.now) → (there : List T) → ((x : T) → Contains there x → T.fits x) → ((rows : List Cells) → Shown sql.now (bound params.now) (state S.Store tx.old.conn.now) (state S.Store tx.new.conn.now) rows → rows ≡ map T.shown there) → IfOk result (λ list. list.items ≡ there) }
{
    let rows = plain_rows(tx, sql, params)?;
    read_rows(*rows.allocator(), &rows)
}
