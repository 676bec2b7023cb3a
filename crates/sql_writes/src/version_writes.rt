//! The version of the policy inside a transaction.

ghost use Rattle.std.specs.Prelude.{◌<◌, ◌↔◌, true, IsTrue, List, OnOk};
ghost use Rattle.sqlite.specs.Held.{state};
ghost use Rattle.sqlite.specs.State.{HasCleanDisk};
ghost use Rattle.bank_terms.specs.Limits.{max_version};
ghost use Rattle.bank_books.specs.Version.{has_version_for, with_version};
ghost use Rattle.bank_books.specs.WorldLists.{WorldLists};
ghost use Rattle.bank_books.specs.declared.row_write.RowWrite.{RowWrite as TheWrite};
ghost use Rattle.sql_schema.specs.Held.{HoldsWorld};
ghost use Rattle.sql_schema.specs.Steps.{Frame, Moves};

use bank_terms::MAX_VERSION;
use money::Fault;
use sql_books::{set_version, version_of};
use sqlite::{Alter, Transaction};

/// Whether a version comes after this one.
fn has_room(version: u64) -> bool
    ensures { IsTrue result ↔ (version < max_version) }
{
    version < MAX_VERSION
}

/// The next version of the policy. Where the version is the last one it is a fault of size.
pub fn raise_version<S: Alter>(tx: &mut Transaction<'_, S>) -> Result<(), Fault>
    ensures frame { Frame S.Store tx.old.conn tx.new.conn }
    ensures moves { Moves (state S.Store tx.old.conn.now) (state S.Store tx.new.conn.now) (with_version true) result }
    ensures room { HasCleanDisk (state S.Store tx.new.conn.now) → IsTrue (state S.Store tx.old.conn.now).in_transaction → (w : WorldLists) → HoldsWorld (state S.Store tx.old.conn.now).now w → OnOk result ((plan : List TheWrite) → IsTrue (has_version_for plan w.version)) }
{
    let version = version_of(tx)?;
    if !has_room(version) {
        return Err(Fault::Size);
    }
    set_version(tx, version + 1)
}
