//! The tables that a check of the books needs, in groups, and the order in which they are read.

ghost use Rattle.std.specs.Prelude.{◌≡◌, IfErr, IfOk, IsTrue, false};
ghost use Rattle.sqlite.specs.Held.{state};
ghost use Rattle.sql_schema.specs.Readable.{IsReadableUser};
ghost use Rattle.sql_schema.specs.Steps.{LeavesNone};
ghost use Rattle.sql_whole.specs.BookRows.{AreBookRows, AreHistoryRows, AreLedgerRows, AreSlipRows, AreUserRows};
ghost use Rattle.sql_whole.specs.Faults.{IsOfDatabase};
ghost use Rattle.sql_whole.specs.Typed.{AreBooksTyped, AreSlipsTyped, AreUsersTyped, Each, IsHistoryTyped, IsLedgerTyped};
ghost use Rattle.sql_whole.specs.Whole.{OnReadable, Reads};

use crate::fault::ReadFault;
use crate::{
    all_accounts, all_branches, all_entries, all_lines, all_proofs, all_releases, all_slip_counts,
    all_slips, all_tellers, all_users,
};
use bank_books::{AccountRecord, BranchRecord, CashLine, EntryRecord, Proof, Release, Slip};
use book_kept::{KeptTeller, KeptUser, SlipCount};
use sql_schema::Edition;
use sqlite::{Alter, Connection};
use std::alloc::Global;

/// Branches, tellers and accounts with the numbers that are kept beside them.
#[derive(Drop)]
pub struct LedgerRows {
    /// The branches.
    pub branches: Vec<BranchRecord>,
    /// The tellers.
    pub tellers: Vec<KeptTeller>,
    /// The accounts.
    pub accounts: Vec<AccountRecord>,
}

/// Entries with the balances after them, cash lines and proofs.
#[derive(Drop)]
pub struct HistoryRows {
    /// The entries.
    pub entries: Vec<EntryRecord>,
    /// The cash lines.
    pub lines: Vec<CashLine>,
    /// The proofs of ended days.
    pub proofs: Vec<Proof>,
}

/// Users with the numbers of their releases, and the releases.
#[derive(Drop)]
pub struct UserRows {
    /// The releases.
    pub releases: Vec<Release>,
    /// The users.
    pub users: Vec<KeptUser>,
}

/// Slips, and how many each user has.
#[derive(Drop)]
pub struct SlipRows {
    /// The slips.
    pub slips: Vec<Slip>,
    /// How many of them each user has.
    pub counts: Vec<SlipCount>,
}

/// All that a check of the books looks at.
#[derive(Drop)]
pub struct BookRows {
    /// Branches, tellers and accounts.
    pub ledger: LedgerRows,
    /// Entries, lines and proofs.
    pub history: HistoryRows,
    /// Users and releases.
    pub users: UserRows,
    /// Slips and how many each user has.
    pub slips: SlipRows,
}

fn ledger_rows<S: Alter>(
    alloc: Global,
    conn: &mut Connection<S>,
    edition: Edition,
) -> Result<LedgerRows, ReadFault>
    ensures mode { conn.old.in_transaction ≡ false → conn.new.in_transaction ≡ false }
    ensures whole { Reads edition (state S.Store conn.old) (state S.Store conn.new) AreLedgerRows result }
    ensures typed { IfOk result IsLedgerTyped }
    ensures takes { OnReadable edition (state S.Store conn.old) (state S.Store conn.new) (IfErr result IsOfDatabase) }
    ensures survives { LeavesNone (state S.Store conn.old) (state S.Store conn.new) }
{
    let branches = all_branches(alloc, conn, edition)?;
    let tellers = all_tellers(alloc, conn, edition)?;
    let accounts = all_accounts(alloc, conn, edition)?;
    Ok(LedgerRows {
        branches,
        tellers,
        accounts,
    })
}

fn history_rows<S: Alter>(
    alloc: Global,
    conn: &mut Connection<S>,
    edition: Edition,
) -> Result<HistoryRows, ReadFault>
    ensures mode { conn.old.in_transaction ≡ false → conn.new.in_transaction ≡ false }
    ensures whole { Reads edition (state S.Store conn.old) (state S.Store conn.new) AreHistoryRows result }
    ensures typed { IfOk result IsHistoryTyped }
    ensures takes { OnReadable edition (state S.Store conn.old) (state S.Store conn.new) (IfErr result IsOfDatabase) }
    ensures survives { LeavesNone (state S.Store conn.old) (state S.Store conn.new) }
{
    let entries = all_entries(alloc, conn, edition)?;
    let lines = all_lines(alloc, conn, edition)?;
    let proofs = all_proofs(alloc, conn, edition)?;
    Ok(HistoryRows {
        entries,
        lines,
        proofs,
    })
}

fn user_rows<S: Alter>(
    alloc: Global,
    conn: &mut Connection<S>,
    edition: Edition,
) -> Result<UserRows, ReadFault>
    ensures mode { conn.old.in_transaction ≡ false → conn.new.in_transaction ≡ false }
    ensures whole { Reads edition (state S.Store conn.old) (state S.Store conn.new) AreUserRows result }
    ensures typed { IfOk result AreUsersTyped }
    ensures takes { OnReadable edition (state S.Store conn.old) (state S.Store conn.new) (IfErr result IsOfDatabase) }
    ensures survives { LeavesNone (state S.Store conn.old) (state S.Store conn.new) }
{
    let releases = all_releases(alloc, conn, edition)?;
    let users = all_users(alloc, conn, edition)?;
    Ok(UserRows { releases, users })
}

/// The slips and their numbers beside these users, on a connection that is open.
fn slip_rows<S: Alter>(
    alloc: Global,
    conn: &mut Connection<S>,
    edition: Edition,
    users: &[KeptUser],
) -> Result<SlipRows, ReadFault>
    ensures mode { conn.old.in_transaction ≡ false → conn.new.in_transaction ≡ false }
    ensures whole { IsTrue (state S.Store conn.old).is_open → Reads edition (state S.Store conn.old) (state S.Store conn.new) (AreSlipRows edition users.now) result }
    ensures typed { Each IsReadableUser users.now → IfOk result AreSlipsTyped }
    ensures takes { IsTrue (state S.Store conn.old).is_open → OnReadable edition (state S.Store conn.old) (state S.Store conn.new) (IfErr result IsOfDatabase) }
    ensures survives { LeavesNone (state S.Store conn.old) (state S.Store conn.new) }
{
    let slips = all_slips(alloc, conn, edition)?;
    let counts = all_slip_counts(alloc, conn, edition, users)?;
    Ok(SlipRows { slips, counts })
}

/// All rows that a check of the books looks at: those of the books, and the users.
pub fn all_book_rows<S: Alter>(
    alloc: Global,
    conn: &mut Connection<S>,
    edition: Edition,
) -> Result<BookRows, ReadFault>
    ensures mode { conn.old.in_transaction ≡ false → conn.new.in_transaction ≡ false }
    ensures whole { Reads edition (state S.Store conn.old) (state S.Store conn.new) (AreBookRows edition) result }
    ensures typed { IfOk result AreBooksTyped }
    ensures takes { OnReadable edition (state S.Store conn.old) (state S.Store conn.new) (IfErr result IsOfDatabase) }
    ensures survives { LeavesNone (state S.Store conn.old) (state S.Store conn.new) }
{
    let ledger = ledger_rows(alloc, conn, edition)?;
    let history = history_rows(alloc, conn, edition)?;
    let users = user_rows(alloc, conn, edition)?;
    let slips = slip_rows(alloc, conn, edition, &users.users)?;
    Ok(BookRows {
        ledger,
        history,
        users,
        slips,
    })
}
