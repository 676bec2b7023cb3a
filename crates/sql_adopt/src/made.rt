//! Rows of a World, made from rows of tables with the numbers that are kept beside them.

ghost use Rattle.std.specs.Prelude.{◌≡◌, map, IfOk};

use bank_books::{
    Account, AccountRecord, Branch, BranchRecord, Entry, EntryRecord, Teller, TellerRecord,
};
use bank_policy::{Name, User};
use book_kept::{KeptTeller, KeptUser};
use money::Fault;
use std::alloc::Global;

/// What is made of a row of a table.
pub(crate) trait MadeOf<T>: Sized {
    ghost use Rattle.std.specs.Prelude.{◌≡◌, IfOk};

    ghost made: { T → Self };

    /// Makes it. Only memory keeps it from that.
    fn made_of(alloc: Global, row: &T) -> Result<Self, Fault>
        ensures { IfOk result (λ x. x ≡ made row.now) };
}

/// What is made of each of the rows.
pub(crate) fn all_made<T, U: MadeOf<T> + Drop>(alloc: Global, rows: &[T]) -> Result<Vec<U>, Fault>
    ensures { IfOk result (λ list. list.items ≡ map U.made rows.now) }
{
    let mut list = Vec::with_capacity(alloc, rows.len())?;
    for row in rows {
        list.push(U::made_of(alloc, row)?)?;
    }
    Ok(list)
}

impl MadeOf<BranchRecord> for Branch {
    ghost made = { λ b. b.row };

    fn made_of(_alloc: Global, row: &BranchRecord) -> Result<Branch, Fault> {
        Ok(row.row)
    }
}

impl MadeOf<KeptTeller> for Teller {
    ghost made = { λ t. t.row };

    fn made_of(_alloc: Global, row: &KeptTeller) -> Result<Teller, Fault> {
        Ok(row.row)
    }
}

impl MadeOf<KeptTeller> for TellerRecord {
    ghost use Rattle.sql_adopt.specs.ReadBack.{teller_read};

    ghost made = { teller_read };

    fn made_of(_alloc: Global, row: &KeptTeller) -> Result<TellerRecord, Fault> {
        Ok(TellerRecord {
            row: row.row,
            balance: row.balance,
            cash: row.cash,
            holder: if row.holder == 0 {
                None
            } else {
                Some(row.holder)
            },
        })
    }
}

impl MadeOf<AccountRecord> for Account {
    ghost made = { λ a. a.row };

    fn made_of(_alloc: Global, row: &AccountRecord) -> Result<Account, Fault> {
        Ok(row.row)
    }
}

impl MadeOf<EntryRecord> for Entry {
    ghost made = { λ e. e.row };

    fn made_of(_alloc: Global, row: &EntryRecord) -> Result<Entry, Fault> {
        Ok(row.row)
    }
}

impl MadeOf<KeptUser> for User {
    ghost made = { λ u. u.row };

    fn made_of(alloc: Global, row: &KeptUser) -> Result<User, Fault> {
        let user = &row.row;
        let name = Name::new(alloc, user.name.as_str())?;
        Ok(User {
            user: user.user,
            name,
            officer: user.officer,
            suspended: user.suspended,
            session: user.session,
            on: user.on,
        })
    }
}
