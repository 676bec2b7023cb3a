//! How a store puts one question to its tables, so that a read changes nothing.

ghost use Rattle.std.specs.Prelude.{◌≡◌, false};
ghost use Rattle.sqlite.specs.Held.{state};
ghost use Rattle.sql_schema.specs.Reads.{ReadsBank};

use money::Fault;
use sql_schema::Question;
use sqlite::{Alter, Connection};
use std::alloc::Global;

/// Asks the question in a transaction of its own, which is rolled back.
pub(crate) fn ask<S: Alter, Q: Question>(
    alloc: Global,
    conn: &mut Connection<S>,
    question: &Q,
) -> Result<Q::Answer, Fault>
    requires { conn.old.in_transaction ≡ false }
    ensures mode { conn.new.in_transaction ≡ false }
    ensures reads { ReadsBank (state S.Store conn.old) (state S.Store conn.new) (Q.says question.now) result }
{
    let mut tx = conn.transaction();
    let answer = question.ask(alloc, &mut tx);
    tx.rollback();
    answer
}
