//! The row of the bank: its schema version, and the version of its policy.

ghost use Rattle.std.specs.Prelude.{◌≡◌, ◌≤◌, ◌∷◌, ◌^◌, [], pos, IfErr, IfOk};
ghost use Rattle.money.specs.declared.fault.Fault.TheVariants.{Size};
ghost use Rattle.sqlite.specs.Held.{state};
ghost use Rattle.sqlite.specs.declared.types.Value.TheVariants.{Int};
ghost use Rattle.sql_schema.specs.Held.{HoldsTables};
ghost use Rattle.sql_schema.specs.Schema.{bank_schema};
ghost use Rattle.sql_schema.specs.Steps.{Frame, RunsInside};
ghost use Rattle.sql_create.specs.Blank.{IsBlank, bare};
ghost use Rattle.sql_create.specs.Goes.{Goes};
ghost use Rattle.sql_create.specs.Texts.{add_bank_text};

use money::Fault;
use sql_schema::{count_cell, run};
use sqlite::{Alter, Transaction, params};

/// What is given with the statement that writes the row of the bank.
#[derive(Drop)]
struct BankCells {
    policy: i64,
}

fn cells_of(version: u64) -> Result<BankCells, Fault>
    ensures cells { IfOk result (λ c. c.policy ≡ pos version) }
    ensures err { IfErr result (λ fault. (fault ≡ Size) × (2 ^ 63 ≤ version)) }
{
    Ok(BankCells {
        policy: count_cell(version)?,
    })
}

fn insert_bank<S: Alter>(tx: &mut Transaction<'_, S>, cells: &BankCells) -> Result<usize, Fault>
    ensures frame { Frame S.Store tx.old.conn tx.new.conn }
    ensures runs { RunsInside add_bank_text (Int cells.now.policy ∷ []) (state S.Store tx.old.conn.now) (state S.Store tx.new.conn.now) result }
{
    run(
        tx,
        "INSERT INTO bank (id, version, policy) VALUES (1, 3, ?1)",
        params![&cells.policy],
    )
}

/// Writes the row of the bank, with the version of its policy, into tables that have no rows. A version
/// of more than 63 bits is a fault of size.
pub(crate) fn add_bank<S: Alter>(tx: &mut Transaction<'_, S>, version: u64) -> Result<(), Fault>
    ensures frame { Frame S.Store tx.old.conn tx.new.conn }
    ensures goes { Goes (state S.Store tx.old.conn.now) (state S.Store tx.new.conn.now) (IsBlank bank_schema) (λ db. HoldsTables db (bare version)) result }
{
    let cells = cells_of(version)?;
    insert_bank(tx, &cells)?;
    Ok(())
}
