//! The tables and indexes of a bank's file, made in a database that has none.

ghost use Rattle.std.specs.Prelude.{[], ℕ, IsTrue, Ok, OnOk};
ghost use Rattle.sqlite.specs.Held.{state};
ghost use Rattle.sqlite.specs.State.{Executes, HasCleanDisk, KeepsCommit};
ghost use Rattle.sql_create.specs.Blank.{IsBlank, begun};
ghost use Rattle.sql_create.specs.Goes.{Goes};
ghost use Rattle.sql_schema.specs.Steps.{Frame};

use money::Fault;
use sql_schema::run;
use sqlite::{Alter, Transaction, params};

/// Runs the text of a definition, such as one that makes a table or takes one away.
pub fn define<S: Alter>(tx: &mut Transaction<'_, S>, sql: &str) -> Result<(), Fault>
    ensures frame { Frame S.Store tx.old.conn tx.new.conn }
    ensures ran { HasCleanDisk (state S.Store tx.new.conn.now) → IsTrue (state S.Store tx.old.conn.now).in_transaction → OnOk result (IsTrue (state S.Store tx.new.conn.now).in_transaction × (count : ℕ) × Executes sql.now [] (state S.Store tx.old.conn.now) (state S.Store tx.new.conn.now) (Ok count)) × KeepsCommit (state S.Store tx.old.conn.now) (state S.Store tx.new.conn.now) }
    ensures open { HasCleanDisk (state S.Store tx.new.conn.now) → IsTrue (state S.Store tx.old.conn.now).in_transaction → OnOk result (IsTrue (state S.Store tx.old.conn.now).is_open) }
{
    run(tx, sql, params![])?;
    Ok(())
}

/// The tables of the bank, of users, and of sets with their members.
fn make_bank_and_sets<S: Alter>(tx: &mut Transaction<'_, S>) -> Result<(), Fault>
    ensures frame { Frame S.Store tx.old.conn tx.new.conn }
    ensures goes { Goes (state S.Store tx.old.conn.now) (state S.Store tx.new.conn.now) (IsBlank (begun 0 0)) (IsBlank (begun 4 1)) result }
{
    define(
        tx,
        "CREATE TABLE bank (id INTEGER PRIMARY KEY, version INTEGER NOT NULL, policy INTEGER NOT NULL) STRICT",
    )?;
    define(
        tx,
        "CREATE TABLE users (user_no INTEGER PRIMARY KEY, name TEXT NOT NULL, officer INTEGER NOT NULL, suspended INTEGER NOT NULL, session INTEGER NOT NULL, is_on INTEGER NOT NULL, releases INTEGER NOT NULL) STRICT",
    )?;
    define(tx, "CREATE TABLE sets (set_no INTEGER PRIMARY KEY) STRICT")?;
    define(
        tx,
        "CREATE TABLE members (set_no INTEGER NOT NULL, place INTEGER NOT NULL, kind INTEGER NOT NULL, low INTEGER NOT NULL, high INTEGER NOT NULL, PRIMARY KEY (set_no, place)) STRICT",
    )
}

/// The tables of relations, triples and certifiers.
fn make_rights<S: Alter>(tx: &mut Transaction<'_, S>) -> Result<(), Fault>
    ensures frame { Frame S.Store tx.old.conn tx.new.conn }
    ensures goes { Goes (state S.Store tx.old.conn.now) (state S.Store tx.new.conn.now) (IsBlank (begun 4 1)) (IsBlank (begun 7 4)) result }
{
    define(
        tx,
        "CREATE TABLE relations (procedure INTEGER NOT NULL, set_no INTEGER NOT NULL, by_user INTEGER NOT NULL, PRIMARY KEY (procedure, set_no)) STRICT",
    )?;
    define(
        tx,
        "CREATE TABLE grants (user_no INTEGER NOT NULL, procedure INTEGER NOT NULL, set_no INTEGER NOT NULL, ceiling INTEGER NOT NULL, first_at INTEGER NOT NULL, last_at INTEGER NOT NULL, PRIMARY KEY (user_no, procedure, set_no), FOREIGN KEY (procedure, set_no) REFERENCES relations (procedure, set_no) ON DELETE CASCADE) STRICT",
    )?;
    define(
        tx,
        "CREATE TABLE certifiers (user_no INTEGER NOT NULL, procedure INTEGER NOT NULL, PRIMARY KEY (user_no, procedure)) STRICT",
    )
}

/// The tables of branches, tellers, accounts and entries.
fn make_books<S: Alter>(tx: &mut Transaction<'_, S>) -> Result<(), Fault>
    ensures frame { Frame S.Store tx.old.conn tx.new.conn }
    ensures goes { Goes (state S.Store tx.old.conn.now) (state S.Store tx.new.conn.now) (IsBlank (begun 7 4)) (IsBlank (begun 11 6)) result }
{
    define(
        tx,
        "CREATE TABLE branches (branch INTEGER PRIMARY KEY, opening INTEGER NOT NULL, cash INTEGER NOT NULL, day INTEGER NOT NULL, balance INTEGER NOT NULL, vault INTEGER NOT NULL, entries INTEGER NOT NULL, lines INTEGER NOT NULL, accounts INTEGER NOT NULL, history INTEGER NOT NULL, drawers INTEGER NOT NULL, cash_entries INTEGER NOT NULL, differences INTEGER NOT NULL) STRICT",
    )?;
    define(
        tx,
        "CREATE TABLE tellers (teller INTEGER PRIMARY KEY, branch INTEGER NOT NULL, opening INTEGER NOT NULL, balance INTEGER NOT NULL, cash INTEGER NOT NULL, holder INTEGER NOT NULL) STRICT",
    )?;
    define(
        tx,
        "CREATE TABLE accounts (account INTEGER PRIMARY KEY, home INTEGER NOT NULL, opening INTEGER NOT NULL, floor INTEGER NOT NULL, balance INTEGER NOT NULL, turns INTEGER NOT NULL) STRICT",
    )?;
    define(
        tx,
        "CREATE TABLE entries (branch INTEGER NOT NULL, number INTEGER NOT NULL, account INTEGER NOT NULL, turn INTEGER NOT NULL, teller INTEGER NOT NULL, delta INTEGER NOT NULL, moment INTEGER NOT NULL, day INTEGER NOT NULL, user_no INTEGER NOT NULL, form INTEGER NOT NULL, partner INTEGER NOT NULL, undoes INTEGER NOT NULL, balance_after INTEGER NOT NULL, PRIMARY KEY (branch, number), UNIQUE (account, turn)) STRICT",
    )
}

/// The tables of lines, proofs and releases.
fn make_history<S: Alter>(tx: &mut Transaction<'_, S>) -> Result<(), Fault>
    ensures frame { Frame S.Store tx.old.conn tx.new.conn }
    ensures goes { Goes (state S.Store tx.old.conn.now) (state S.Store tx.new.conn.now) (IsBlank (begun 11 6)) (IsBlank (begun 14 9)) result }
{
    define(
        tx,
        "CREATE TABLE lines (branch INTEGER NOT NULL, number INTEGER NOT NULL, place INTEGER NOT NULL, amount INTEGER NOT NULL, form INTEGER NOT NULL, moment INTEGER NOT NULL, day INTEGER NOT NULL, user_no INTEGER NOT NULL, PRIMARY KEY (branch, number)) STRICT",
    )?;
    define(
        tx,
        "CREATE TABLE proofs (branch INTEGER NOT NULL, day INTEGER NOT NULL, entries INTEGER NOT NULL, balance INTEGER NOT NULL, cash INTEGER NOT NULL, PRIMARY KEY (branch, day)) STRICT",
    )?;
    define(
        tx,
        "CREATE TABLE releases (user_no INTEGER NOT NULL, number INTEGER NOT NULL, giver INTEGER NOT NULL, branch INTEGER NOT NULL, day INTEGER NOT NULL, form INTEGER NOT NULL, member1 INTEGER NOT NULL, member2 INTEGER NOT NULL, member3 INTEGER NOT NULL, member4 INTEGER NOT NULL, member5 INTEGER NOT NULL, member6 INTEGER NOT NULL, member7 INTEGER NOT NULL, member8 INTEGER NOT NULL, used INTEGER NOT NULL, PRIMARY KEY (user_no, number)) STRICT",
    )
}

/// The indexes by which rows are looked up that no key finds, after the tables of earlier schema versions.
fn make_indexes<S: Alter>(tx: &mut Transaction<'_, S>) -> Result<(), Fault>
    ensures frame { Frame S.Store tx.old.conn tx.new.conn }
    ensures goes { Goes (state S.Store tx.old.conn.now) (state S.Store tx.new.conn.now) (IsBlank (begun 14 9)) (IsBlank (begun 14 11)) result }
{
    define(
        tx,
        "CREATE INDEX entries_by_undoes ON entries (branch, undoes)",
    )?;
    define(
        tx,
        "CREATE INDEX tellers_by_branch ON tellers (branch, teller)",
    )
}

/// The tables of slips and of how many each user has, after all others.
fn make_slips<S: Alter>(tx: &mut Transaction<'_, S>) -> Result<(), Fault>
    ensures frame { Frame S.Store tx.old.conn tx.new.conn }
    ensures goes { Goes (state S.Store tx.old.conn.now) (state S.Store tx.new.conn.now) (IsBlank (begun 14 11)) (IsBlank (begun 16 12)) result }
{
    define(
        tx,
        "CREATE TABLE slips (user_no INTEGER NOT NULL, slip INTEGER NOT NULL, form INTEGER NOT NULL, member1 INTEGER NOT NULL, member2 INTEGER NOT NULL, member3 INTEGER NOT NULL, member4 INTEGER NOT NULL, member5 INTEGER NOT NULL, member6 INTEGER NOT NULL, member7 INTEGER NOT NULL, member8 INTEGER NOT NULL, reply BLOB NOT NULL, PRIMARY KEY (user_no, slip)) STRICT",
    )?;
    define(
        tx,
        "CREATE TABLE slip_counts (user_no INTEGER PRIMARY KEY, slips INTEGER NOT NULL) STRICT",
    )
}

/// All tables of a bank's file with its indexes, with no rows.
pub(crate) fn make_tables<S: Alter>(tx: &mut Transaction<'_, S>) -> Result<(), Fault>
    ensures frame { Frame S.Store tx.old.conn tx.new.conn }
    ensures goes { Goes (state S.Store tx.old.conn.now) (state S.Store tx.new.conn.now) (IsBlank (begun 0 0)) (IsBlank (begun 16 12)) result }
{
    make_bank_and_sets(tx)?;
    make_rights(tx)?;
    make_books(tx)?;
    make_history(tx)?;
    make_indexes(tx)?;
    make_slips(tx)
}
