//! The bank of a year that ends, read from its file, and the World that its next year begins with.

ghost use Rattle.std.specs.Prelude.{◌≡◌, false, MatchResult};
ghost use Rattle.bank_books.specs.Books.{Books};
ghost use Rattle.bank_books.specs.Records.{kept_of};
ghost use Rattle.cli_file.specs.Files.{IsNotFound};
ghost use Rattle.cli_make.specs.Reading.{IsNextYear, IsYearEnded, IsYearRead};

use bank_books::World;
use cli_file::{ActionFault, FileConnection};
use sql_adopt::{BankRows, adopt_rows};
use sqlite_disk::Disk;
use std::alloc::Global;
use year_forward::{begin_year, first_open};

/// The bank that stands in an open file, whose books hold and whose policy is sound; or why there is none. Nothing is changed.
fn read_year<D: Disk + Drop>(
    alloc: Global,
    conn: &mut FileConnection<D>,
) -> Result<BankRows, ActionFault<'static>>
    requires { conn.old.in_transaction ≡ false }
    ensures { MatchResult result
        (λ bank. IsYearRead conn.old bank.world conn.new × (bank.kept ≡ kept_of bank.world))
        (λ stated. IsNotFound conn.old stated conn.new) }
{
    match adopt_rows(alloc, conn) {
        Ok(bank) => Ok(bank),
        Err(fault) => Err(ActionFault::of_adopting(fault)),
    }
}

/// The World that a bank begins its next year with. It is refused for the least branch that is not closed, and for want of memory.
fn next_year(alloc: Global, bank: BankRows) -> Result<World, ActionFault<'static>>
    requires kept { bank.kept ≡ kept_of bank.world }
    requires books { Books bank.world }
    ensures { IsNextYear bank.world result }
{
    let BankRows { world, kept } = bank;
    if let Some(branch) = first_open(&world, &kept) {
        return Err(ActionFault::NotClosed(branch));
    }
    match begin_year(alloc, world, &kept) {
        Ok(next) => Ok(next),
        Err(fault) => Err(ActionFault::of_store(fault)),
    }
}

/// The World of the next year of the bank that stands in an open file, or why there is none. Nothing is changed. The connection is
/// handed back.
pub(crate) fn end_year<D: Disk + Drop>(
    alloc: Global,
    mut conn: FileConnection<D>,
) -> (FileConnection<D>, Result<World, ActionFault<'static>>)
    requires { conn.in_transaction ≡ false }
    ensures { IsYearEnded conn result.0 result.1 }
{
    match read_year(alloc, &mut conn) {
        Ok(bank) => (conn, next_year(alloc, bank)),
        Err(fault) => (conn, Err(fault)),
    }
}
