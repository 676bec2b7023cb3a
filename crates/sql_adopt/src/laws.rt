//! What holds of every connection to a bank. The functions do nothing; their contracts are the laws.

ghost use Rattle.std.specs.Prelude.{◌≢◌, Ok};
ghost use Rattle.sqlite.specs.Held.{state};
ghost use Rattle.sqlite.specs.State.{Opens};
ghost use Rattle.bank_books.specs.Books.{Books};
ghost use Rattle.bank_books.specs.WorldLists.{WorldLists};
ghost use Rattle.sql_schema.specs.Held.{AreOfWorld, AreOfWorldIn, HoldsBank};
ghost use Rattle.sql_schema.specs.Readable.{AreReadable};
ghost use Rattle.sql_schema.specs.Schema.{newest};
ghost use Rattle.sql_schema.specs.declared.edition.Edition.{Edition};
ghost use Rattle.book_kept.specs.Sheets.{sheets_of};
ghost use Rattle.policy_check.specs.PolicyVerdict.{IsPolicyVerdict};
ghost use Rattle.sql_adopt.specs.Adopted.{HoldsBankIn, IsBankFile, IsOfAnother};
ghost use Rattle.sql_adopt.specs.Older.{IsNewestFile, IsOlderFile};
ghost use Rattle.sql_adopt.specs.Refused.{HoldsSoundBankIn};

use sqlite::{Alter, Connection};

/// What `create` makes and a store leaves may be adopted: a connection whose tables hold a World, with nothing in them
/// uncommitted, is one to a bank's file, of which the clauses of `adopt` speak, and to one of the newest schema version.
pub fn held_bank_is_file<S: Alter>(_conn: &Connection<S>)
    ensures file { (w : WorldLists) → HoldsBank (state S.Store _conn.now) w → IsBankFile (state S.Store _conn.now) }
    ensures newest { (w : WorldLists) → HoldsBank (state S.Store _conn.now) w → IsNewestFile (state S.Store _conn.now) }
{}

/// What stands in a schema version before the newest may be carried over: a connection whose tables hold a World as that version lays
/// it out, with nothing in them uncommitted, is one of which the clauses of `upgrade` speak. To a reader of any other version it is of another.
pub fn held_older_bank_is_file<S: Alter>(_conn: &Connection<S>)
    ensures older { (e : Edition) (w : WorldLists) → e ≢ newest → HoldsBankIn e (state S.Store _conn.now) w → IsOlderFile e (state S.Store _conn.now) }
    ensures other { (e edition : Edition) (w : WorldLists) → e ≢ edition → HoldsBankIn e (state S.Store _conn.now) w → IsOfAnother edition (state S.Store _conn.now) }
{}

/// What a crash may leave of a bank is that bank, once it is opened anew, in every schema version: a connection that opens over the
/// trees of a World holds this World, with nothing uncommitted; of a version before the newest it is one to a file that may be carried
/// over. Where the books of this World hold, its policy is sound and separated and its rows are of the types that they are read as, it is
/// a sound bank, which `adopt` and `upgrade` refuse for a fault of the database alone.
pub fn opened_world_is_bank<S: Alter>(conn: &Connection<S>)
    ensures bank { (w : WorldLists) → Opens (state S.Store conn.now) → AreOfWorld w (state S.Store conn.now).committed.trees → HoldsBank (state S.Store conn.now) w }
    ensures held { (e : Edition) (w : WorldLists) → Opens (state S.Store conn.now) → AreOfWorldIn e w (state S.Store conn.now).committed.trees → HoldsBankIn e (state S.Store conn.now) w }
    ensures older { (e : Edition) (w : WorldLists) → e ≢ newest → Opens (state S.Store conn.now) → AreOfWorldIn e w (state S.Store conn.now).committed.trees → IsOlderFile e (state S.Store conn.now) }
    ensures sound { (e : Edition) (w : WorldLists) → Opens (state S.Store conn.now) → AreOfWorldIn e w (state S.Store conn.now).committed.trees → Books w → IsPolicyVerdict w.policy (Ok tt) → AreReadable (sheets_of w) → HoldsSoundBankIn e (state S.Store conn.now).now }
{
    // Reading the schema ensures that the connection's state is one that it can be in, on which the law rests.
    let _schema = conn.schema();
}
