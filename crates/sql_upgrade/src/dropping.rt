//! The tables of a file of a schema version before the newest, taken away: the last that was made first, so that
//! no key of another table acts on the rows that go.

ghost use Rattle.std.specs.Prelude.{◌≡◌};
ghost use Rattle.sqlite.specs.Held.{state};
ghost use Rattle.sql_schema.specs.declared.edition.Edition.{Edition as TheEdition};
ghost use Rattle.sql_schema.specs.Steps.{Frame};
ghost use Rattle.sql_upgrade.specs.Left.{HasSchema, left, triples_text};
ghost use Rattle.sql_upgrade.specs.Proceeds.{Proceeds};

use money::Fault;
use sql_create::define;
use sql_schema::Edition;
use sqlite::{Alter, Transaction};

/// Takes away the tables of lines, proofs and releases.
fn drop_history<S: Alter>(tx: &mut Transaction<'_, S>) -> Result<(), Fault>
    ensures frame { Frame S.Store tx.old.conn tx.new.conn }
    ensures proceeds { (e : TheEdition) → Proceeds (state S.Store tx.old.conn.now) (state S.Store tx.new.conn.now) (HasSchema (left e 14 9 0)) (HasSchema (left e 11 6 0)) result }
{
    define(tx, "DROP TABLE releases")?;
    define(tx, "DROP TABLE proofs")?;
    define(tx, "DROP TABLE lines")
}

/// Takes away the tables of branches, tellers, accounts and entries.
fn drop_books<S: Alter>(tx: &mut Transaction<'_, S>) -> Result<(), Fault>
    ensures frame { Frame S.Store tx.old.conn tx.new.conn }
    ensures proceeds { (e : TheEdition) → Proceeds (state S.Store tx.old.conn.now) (state S.Store tx.new.conn.now) (HasSchema (left e 11 6 0)) (HasSchema (left e 7 4 2)) result }
{
    define(tx, "DROP TABLE entries")?;
    define(tx, "DROP TABLE accounts")?;
    define(tx, "DROP TABLE tellers")?;
    define(tx, "DROP TABLE branches")
}

/// What takes away the table of the triples, which is not the same in all schema versions.
fn triples_text(edition: Edition) -> &'static str
    ensures { result.now ≡ triples_text edition }
{
    match edition {
        Edition::First => "DROP TABLE triples",
        Edition::Second => "DROP TABLE grants",
        Edition::Third => "DROP TABLE grants",
    }
}

/// Takes away the tables of relations, triples and certifiers: triples go before the relations that they are
/// of.
fn drop_rights<S: Alter>(tx: &mut Transaction<'_, S>, edition: Edition) -> Result<(), Fault>
    ensures frame { Frame S.Store tx.old.conn tx.new.conn }
    ensures proceeds { Proceeds (state S.Store tx.old.conn.now) (state S.Store tx.new.conn.now) (HasSchema (left edition 7 4 2)) (HasSchema (left edition 4 1 2)) result }
{
    define(tx, "DROP TABLE certifiers")?;
    define(tx, triples_text(edition))?;
    define(tx, "DROP TABLE relations")
}

/// Takes away the tables of the bank, of users, and of sets with their members.
fn drop_bank_and_sets<S: Alter>(tx: &mut Transaction<'_, S>) -> Result<(), Fault>
    ensures frame { Frame S.Store tx.old.conn tx.new.conn }
    ensures proceeds { (e : TheEdition) → Proceeds (state S.Store tx.old.conn.now) (state S.Store tx.new.conn.now) (HasSchema (left e 4 1 2)) (HasSchema (left e 0 0 2)) result }
{
    define(tx, "DROP TABLE members")?;
    define(tx, "DROP TABLE sets")?;
    define(tx, "DROP TABLE users")?;
    define(tx, "DROP TABLE bank")
}

/// Takes away all tables that each schema version has, whatever stands in them.
pub(crate) fn drop_tables<S: Alter>(
    tx: &mut Transaction<'_, S>,
    edition: Edition,
) -> Result<(), Fault>
    ensures frame { Frame S.Store tx.old.conn tx.new.conn }
    ensures proceeds { Proceeds (state S.Store tx.old.conn.now) (state S.Store tx.new.conn.now) (HasSchema (left edition 14 9 0)) (HasSchema (left edition 0 0 2)) result }
{
    drop_history(tx)?;
    drop_books(tx)?;
    drop_rights(tx, edition)?;
    drop_bank_and_sets(tx)
}
