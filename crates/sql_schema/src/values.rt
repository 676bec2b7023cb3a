//! Names, bytes, sums, forms and the members of operations, read from the columns of a row.

ghost use Rattle.std.specs.Prelude.{ℤ, List, ◌≡◌, pos, length, map, IfErr, IfOk, IsUtf8};
ghost use Rattle.money.specs.Range.{IsDelta};
ghost use Rattle.sqlite.specs.declared.types.Value.TheVariants.{Blob, Int, Text};
ghost use Rattle.sqlite_value.specs.Order.{column};
ghost use Rattle.bank_books.specs.SlipRow.{SlipRow};
ghost use Rattle.bank_books.specs.declared.rows.Release.{Release as TheRelease};
ghost use Rattle.sql_schema.specs.Cells.{AnyRow, ReleaseFits, SlipFits, release_cells, slip_cells};
ghost use Rattle.sql_schema.specs.Numbers.{entry_form_number, line_form_number};
ghost use Rattle.sql_schema.specs.Readable.{IsUnread};
ghost use Rattle.sql_schema.specs.ReadBack.{columns_from};

use crate::cells::{fault_of, number_at, whole_at};
use bank_books::{EntryForm, LineForm};
use bank_policy::Name;
use money::{Delta, Fault};
use sqlite::Row;
use std::alloc::Global;

/// A name in a row. A value that is no text is a fault of the disk.
pub fn name_at(alloc: Global, row: &Row, at: usize) -> Result<Name, Fault>
    ensures stated { IfOk result (λ name. column row.now at ≡ Text name) }
    ensures typed { IfOk result IsUtf8 }
    ensures unread { IfErr result (IsUnread Text IsUtf8 (column row.now at)) }
{
    match row.get::<String>(at) {
        Ok(text) => Ok(Name::new(alloc, text.as_str())?),
        Err(error) => Err(fault_of(error)),
    }
}

/// The bytes in a row. A value that is no bytes is a fault of the disk.
pub fn bytes_at(row: &Row, at: usize) -> Result<Vec<u8>, Fault>
    ensures stated { IfOk result (λ bytes. column row.now at ≡ Blob bytes.items) }
    ensures unread { IfErr result (IsUnread Blob AnyRow (column row.now at)) }
{
    match row.get::<Vec<u8>>(at) {
        Ok(bytes) => Ok(bytes),
        Err(error) => Err(fault_of(error)),
    }
}

/// A sum of cents in a row. Any other value is a fault of the disk.
pub fn sum_at(row: &Row, at: usize) -> Result<i128, Fault>
    ensures stated { IfOk result (λ sum. column row.now at ≡ Int sum) }
    ensures unread { IfErr result (IsUnread Int AnyRow (column row.now at)) }
{
    Ok(i128::from(whole_at(row, at)?))
}

/// What an entry adds, in a row. A value out of its limits is a fault of the disk.
pub fn delta_at(row: &Row, at: usize) -> Result<Delta, Fault>
    ensures stated { IfOk result (λ delta. column row.now at ≡ Int delta) }
    ensures unread { IfErr result (IsUnread Int IsDelta (column row.now at)) }
{
    match Delta::new(whole_at(row, at)?) {
        Some(delta) => Ok(delta),
        None => Err(Fault::Disk),
    }
}

/// How an entry came about, by the number in a row. Any other value is a fault of the disk.
pub fn entry_form_at(row: &Row, at: usize) -> Result<EntryForm, Fault>
    ensures stated { IfOk result (λ form. column row.now at ≡ Int (pos (entry_form_number form))) }
    ensures unread { IfErr result (IsUnread (λ form. Int (pos (entry_form_number form))) AnyRow (column row.now at)) }
{
    match number_at(row, at)? {
        1 => Ok(EntryForm::Post),
        2 => Ok(EntryForm::TransferLeg),
        3 => Ok(EntryForm::Correction),
        _ => Err(Fault::Disk),
    }
}

/// How a cash line came about, by the number in a row. Any other value is a fault of the disk.
pub fn line_form_at(row: &Row, at: usize) -> Result<LineForm, Fault>
    ensures stated { IfOk result (λ form. column row.now at ≡ Int (pos (line_form_number form))) }
    ensures unread { IfErr result (IsUnread (λ form. Int (pos (line_form_number form))) AnyRow (column row.now at)) }
{
    match number_at(row, at)? {
        1 => Ok(LineForm::CashEntry),
        2 => Ok(LineForm::On),
        3 => Ok(LineForm::Off),
        4 => Ok(LineForm::Move),
        5 => Ok(LineForm::Difference),
        _ => Err(Fault::Disk),
    }
}

/// The numbers of the eight members of an operation, in a row from its seventh column on.
pub fn members_of(row: &Row) -> Result<[i64; 8], Fault>
    ensures stated { IfOk result (λ members. columns_from 6 8 row.now ≡ map Int members) }
    ensures there { IfOk result (λ members. (r : TheRelease) → ReleaseFits r → row.now ≡ release_cells r → members ≡ r.operation.members) }
    ensures eight { IfOk result (λ members. length members ≡ 8) }
    ensures unread { IfErr result (IsUnread (map Int) (λ (members : List ℤ). length members ≡ 8) (columns_from 6 8 row.now)) }
{
    Ok([
        whole_at(row, 6)?,
        whole_at(row, 7)?,
        whole_at(row, 8)?,
        whole_at(row, 9)?,
        whole_at(row, 10)?,
        whole_at(row, 11)?,
        whole_at(row, 12)?,
        whole_at(row, 13)?,
    ])
}

/// The numbers of the eight members of a slip's operation, in a row from its fourth column on.
pub fn slip_members_of(row: &Row) -> Result<[i64; 8], Fault>
    ensures stated { IfOk result (λ members. columns_from 3 8 row.now ≡ map Int members) }
    ensures there { IfOk result (λ members. (s : SlipRow) → SlipFits s → row.now ≡ slip_cells s → members ≡ s.operation.members) }
    ensures eight { IfOk result (λ members. length members ≡ 8) }
    ensures unread { IfErr result (IsUnread (map Int) (λ (members : List ℤ). length members ≡ 8) (columns_from 3 8 row.now)) }
{
    Ok([
        whole_at(row, 3)?,
        whole_at(row, 4)?,
        whole_at(row, 5)?,
        whole_at(row, 6)?,
        whole_at(row, 7)?,
        whole_at(row, 8)?,
        whole_at(row, 9)?,
        whole_at(row, 10)?,
    ])
}
