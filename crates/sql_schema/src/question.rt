//! What is asked of a bank's tables inside a transaction, without changing them.

ghost use Rattle.std.specs.Prelude.{◌≡◌};
ghost use Rattle.sqlite.specs.Held.{state};
ghost use Rattle.bank_books.specs.WorldLists.{WorldLists};
ghost use Rattle.sql_schema.specs.Reads.{ReadsWorld};

use money::Fault;
use sqlite::{Alter, Transaction};
use std::alloc::Global;

/// A question to the tables of a bank.
pub trait Question {
    /// What is answered.
    type Answer;

    /// What an answer says of the World that the tables hold.
    ghost says: { Self → WorldLists → Self.Answer → Type 0 };

    /// Asks it inside a transaction, which it changes nothing of. A fault of the database is answered in its place.
    fn ask<S: Alter>(
        &self,
        alloc: Global,
        tx: &mut Transaction<'_, S>,
    ) -> Result<Self::Answer, Fault>
        ensures same_reference { tx.new.conn.ghost_name ≡ tx.old.conn.ghost_name }
        ensures reads { ReadsWorld (state S.Store tx.old.conn.now) (state S.Store tx.new.conn.now) (says self.now) result };
}
