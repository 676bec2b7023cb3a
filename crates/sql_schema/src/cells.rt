//! Numbers in columns, read and written: amounts, counts, truths, procedures and kinds, and the faults of bad ones.

ghost use Rattle.std.specs.Prelude.{◌≡◌, ◌≤◌, ◌^◌, pos, IfErr, IfOk};
ghost use Rattle.money.specs.Range.{IsCents};
ghost use Rattle.money.specs.declared.fault.Fault.TheVariants.{Size};
ghost use Rattle.sqlite.specs.declared.types.Value.TheVariants.{Int};
ghost use Rattle.sqlite_value.specs.Order.{column};
ghost use Rattle.sql_schema.specs.Cells.{AnyRow};
ghost use Rattle.sql_schema.specs.Faults.{fault_named};
ghost use Rattle.sql_schema.specs.Numbers.{kind_cell, kind_number, kind_numbered, procedure_cell, procedure_numbered, truth_cell};
ghost use Rattle.sql_schema.specs.Readable.{IsShort, IsUnread};

use bank_terms::{Kind, Procedure};
use money::{Cents, Fault};
use sqlite::{Error, ErrorCode, Row};

/// The fault that an error of the database is: want of memory, a limit on size, or else the disk.
pub fn fault_of(error: Error) -> Fault
    ensures { result ≡ fault_named error }
{
    match error {
        Error::SqliteFailure(ErrorCode::OutOfMemory) => Fault::Memory,
        Error::SqliteFailure(ErrorCode::TooBig) => Fault::Size,
        _ => Fault::Disk,
    }
}

/// A number of 32 bits in a row, whose columns count from 0. Any other value is a fault of the disk.
pub fn number_at(row: &Row, at: usize) -> Result<u32, Fault>
    ensures stated { IfOk result (λ n. column row.now at ≡ Int (pos n)) }
    ensures unread { IfErr result (IsUnread (λ n. Int (pos n)) IsShort (column row.now at)) }
{
    match row.get::<u32>(at) {
        Ok(n) => Ok(n),
        Err(error) => Err(fault_of(error)),
    }
}

/// A count in a row. Any other value is a fault of the disk.
pub fn count_at(row: &Row, at: usize) -> Result<u64, Fault>
    ensures stated { IfOk result (λ n. column row.now at ≡ Int (pos n)) }
    ensures unread { IfErr result (IsUnread (λ n. Int (pos n)) AnyRow (column row.now at)) }
{
    match row.get::<u64>(at) {
        Ok(n) => Ok(n),
        Err(error) => Err(fault_of(error)),
    }
}

/// A whole number in a row. Any other value is a fault of the disk.
pub fn whole_at(row: &Row, at: usize) -> Result<i64, Fault>
    ensures stated { IfOk result (λ n. column row.now at ≡ Int n) }
    ensures unread { IfErr result (IsUnread Int AnyRow (column row.now at)) }
{
    match row.get::<i64>(at) {
        Ok(n) => Ok(n),
        Err(error) => Err(fault_of(error)),
    }
}

/// An amount in a row, in cents. One out of its limits is a fault of the disk.
pub fn cents_at(row: &Row, at: usize) -> Result<Cents, Fault>
    ensures stated { IfOk result (λ n. column row.now at ≡ Int n) }
    ensures unread { IfErr result (IsUnread Int IsCents (column row.now at)) }
{
    match Cents::new(whole_at(row, at)?) {
        Some(cents) => Ok(cents),
        None => Err(Fault::Disk),
    }
}

/// A truth in a row, 1 or 0. Any other value is a fault of the disk.
pub fn truth_at(row: &Row, at: usize) -> Result<bool, Fault>
    ensures stated { IfOk result (λ truth. column row.now at ≡ truth_cell truth) }
    ensures unread { IfErr result (IsUnread truth_cell AnyRow (column row.now at)) }
{
    match number_at(row, at)? {
        0 => Ok(false),
        1 => Ok(true),
        _ => Err(Fault::Disk),
    }
}

/// A procedure in a row, by its number. Any other value is a fault of the disk.
pub fn procedure_at(row: &Row, at: usize) -> Result<Procedure, Fault>
    ensures stated { IfOk result (λ procedure. column row.now at ≡ procedure_cell procedure) }
    ensures unread { IfErr result (IsUnread procedure_cell AnyRow (column row.now at)) }
{
    match procedure_numbered(number_at(row, at)?) {
        Some(procedure) => Ok(procedure),
        None => Err(Fault::Disk),
    }
}

/// The procedure of this number, or none where no procedure has it.
fn procedure_numbered(number: u32) -> Option<Procedure>
    ensures { result ≡ procedure_numbered number }
{
    match number {
        1 => Some(Procedure::Post),
        2 => Some(Procedure::Transfer),
        3 => Some(Procedure::Correct),
        4 => Some(Procedure::DrawerOn),
        5 => Some(Procedure::DrawerOff),
        6 => Some(Procedure::MoveCash),
        7 => Some(Procedure::NewAccount),
        8 => Some(Procedure::Release),
        9 => Some(Procedure::Balance),
        10 => Some(Procedure::Statement),
        11 => Some(Procedure::Accounts),
        12 => Some(Procedure::Proof),
        13 => Some(Procedure::CloseDay),
        _ => None,
    }
}

/// A kind of items in a row, by its number. Any other value is a fault of the disk.
pub fn kind_at(row: &Row, at: usize) -> Result<Kind, Fault>
    ensures stated { IfOk result (λ kind. column row.now at ≡ kind_cell kind) }
    ensures unread { IfErr result (IsUnread kind_cell AnyRow (column row.now at)) }
{
    match kind_numbered(number_at(row, at)?) {
        Some(kind) => Ok(kind),
        None => Err(Fault::Disk),
    }
}

/// The kind of this number, or none where no kind has it.
fn kind_numbered(number: u32) -> Option<Kind>
    ensures { result ≡ kind_numbered number }
{
    match number {
        1 => Some(Kind::Account),
        2 => Some(Kind::Teller),
        3 => Some(Kind::Branch),
        4 => Some(Kind::History),
        5 => Some(Kind::Drawer),
        6 => Some(Kind::Vault),
        _ => None,
    }
}

/// The number of a kind of items, 1 to 6.
pub fn kind_number(kind: Kind) -> u32
    ensures { result ≡ kind_number kind }
{
    match kind {
        Kind::Account => 1,
        Kind::Teller => 2,
        Kind::Branch => 3,
        Kind::History => 4,
        Kind::Drawer => 5,
        Kind::Vault => 6,
    }
}

/// A sum as a column holds it. One of more than 64 bits is a fault of size.
pub fn sum_cell(sum: &i128) -> Result<i64, Fault>
    ensures ok { IfOk result (λ cell. cell ≡ sum.now) }
    ensures err { IfErr result (λ fault. fault ≡ Size) }
{
    match i64::try_from(*sum) {
        Ok(cell) => Ok(cell),
        Err(_) => Err(Fault::Size),
    }
}

/// A count as a column holds it. One of more than 63 bits is a fault of size, and no other is.
pub fn count_cell(count: u64) -> Result<i64, Fault>
    ensures ok { IfOk result (λ cell. cell ≡ pos count) }
    ensures err { IfErr result (λ fault. (fault ≡ Size) × (2 ^ 63 ≤ count)) }
{
    match i64::try_from(count) {
        Ok(cell) => Ok(cell),
        Err(_) => Err(Fault::Size),
    }
}
