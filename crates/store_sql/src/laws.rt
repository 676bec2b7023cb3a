//! What holds of all trees, and of every store over tables in memory. The functions do nothing; their contracts are the laws.

ghost use Rattle.std.specs.Prelude.{◌≡◌};
ghost use Rattle.sqlite.specs.Held.{state};
ghost use Rattle.sqlite.specs.Steps.{over_memory};
ghost use Rattle.sqlite.specs.Tree.{Trees};
ghost use Rattle.sqlite_trees.specs.declared.memory.MemStore.{MemStore};
ghost use Rattle.bank_books.specs.WorldLists.{WorldLists};
ghost use Rattle.sql_schema.specs.Held.{AreOfWorldIn};
ghost use Rattle.sql_schema.specs.declared.edition.Edition.{Edition};
ghost use Rattle.store_sql.specs.Bank.{sql_status};
ghost use Rattle.store_sql.specs.declared.sql_store.SqlStore.{SqlStore};

/// Tables in memory give back what was written: a store over them is honest, whatever was done with it.
pub fn memory_is_honest()
    ensures { (store : SqlStore MemStore over_memory) → (sql_status (state over_memory store.conn) store.is_stopped store.faults store.failures).is_honest }
{}

/// In a schema version, trees hold the rows of one World at most. So trees that a crash may leave are of one World.
pub fn trees_hold_one_world()
    ensures { (e : Edition) (v w : WorldLists) (trees : Trees) → AreOfWorldIn e v trees → AreOfWorldIn e w trees → v ≡ w }
{}
