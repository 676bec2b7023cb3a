//! The rows of the books and a policy put together: a World with the numbers that are kept beside its rows.

ghost use Rattle.std.specs.Prelude.{◌≡◌, IfOk, IfSome, IsSome};
ghost use Rattle.sql_adopt.specs.ReadBack.{AreBooksInOrder, kept_read, world_read};

use crate::counts::counts_of;
use crate::made::all_made;
use bank_books::{Lists, World};
use bank_policy::Policy;
use book_sums::Kept;
use money::Fault;
use sql_whole::{BookRows, HistoryRows, LedgerRows, SlipRows, UserRows};
use std::alloc::Global;

/// A World and the numbers that are kept beside its rows.
#[derive(Drop)]
pub struct BankRows {
    /// The World.
    pub world: World,
    /// The numbers, in the order of the rows.
    pub kept: Kept,
}

/// The World of these rows and this policy, and the numbers that stand beside its rows, or none where a
/// table does not stand in order of its key.
pub(crate) fn bank_rows(
    alloc: Global,
    books: BookRows,
    policy: Policy,
    version: u64,
) -> Result<Option<BankRows>, Fault>
    ensures world { IfOk result (λ found. IfSome found (λ bank. bank.world ≡ world_read books policy version)) }
    ensures kept { IfOk result (λ found. IfSome found (λ bank. bank.kept ≡ kept_read books)) }
    ensures found { AreBooksInOrder books → IfOk result IsSome }
{
    let BookRows {
        ledger,
        history,
        users,
        slips,
    } = books;
    let LedgerRows {
        branches,
        tellers,
        accounts,
    } = ledger;
    let HistoryRows {
        entries,
        lines,
        proofs,
    } = history;
    let UserRows { releases, users } = users;
    let SlipRows { slips, counts } = slips;
    let lists = Lists {
        branches: all_made(alloc, &branches)?,
        tellers: all_made(alloc, &tellers)?,
        accounts: all_made(alloc, &accounts)?,
        entries: all_made(alloc, &entries)?,
        lines,
        proofs,
        releases,
        slips,
    };
    let stated = all_made(alloc, &tellers)?;
    let counts = counts_of(alloc, &counts, &users)?;
    let kept = Kept::new(branches, stated, accounts, entries, counts);
    match World::from_lists(lists, policy, version) {
        Some(world) => Ok(Some(BankRows { world, kept })),
        None => Ok(None),
    }
}
