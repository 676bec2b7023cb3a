//! The one row of the bank, from which the version of the policy is read and to which it is written.

ghost use Rattle.std.specs.Prelude.{◌≡◌, ◌≤◌, ◌∷◌, ◌^◌, [], pos, IfErr, IfOk};
ghost use Rattle.money.specs.declared.fault.Fault.TheVariants.{Size};
ghost use Rattle.sqlite.specs.Held.{state};
ghost use Rattle.sqlite.specs.declared.types.Value.TheVariants.{Int};
ghost use Rattle.sql_schema.specs.Steps.{FindsHeld, Frame, Reads, RunsInside, Step};
ghost use Rattle.sql_books.specs.Given.{given_version};
ghost use Rattle.sql_books.specs.Texts.{set_version_text};

use money::Fault;
use sql_schema::{count_at, count_cell, plain_rows, run};
use sqlite::{Alter, Row, Transaction, params};

/// The version of the policy, in one row.
fn select_version<S: Alter>(tx: &mut Transaction<'_, S>) -> Result<Vec<Row>, Fault>
    ensures reads { Reads S.Store tx.old.conn tx.new.conn result }
    ensures rows { FindsHeld (state S.Store tx.old.conn.now) (state S.Store tx.new.conn.now) result (λ s rows. rows.items ≡ (Int (pos s.version) ∷ []) ∷ []) }
{
    plain_rows(tx, "SELECT policy FROM bank WHERE id = 1", params![])
}

/// The version of the policy: how many plans have changed it. A file without the row of the bank is
/// a fault of the disk.
pub fn version_of<S: Alter>(tx: &mut Transaction<'_, S>) -> Result<u64, Fault>
    ensures reads { Reads S.Store tx.old.conn tx.new.conn result }
    ensures found { FindsHeld (state S.Store tx.old.conn.now) (state S.Store tx.new.conn.now) result (λ s version. version ≡ s.version) }
{
    let rows = select_version(tx)?;
    match rows.first() {
        Some(row) => count_at(row, 0),
        None => Err(Fault::Disk),
    }
}

/// What is given with the statement that writes the version.
#[derive(Drop)]
struct VersionCells {
    version: i64,
}

fn cells_of(version: u64) -> Result<VersionCells, Fault>
    ensures cells { IfOk result (λ c. given_version c ≡ Int (pos version) ∷ []) }
    ensures err { IfErr result (λ fault. (fault ≡ Size) × (2 ^ 63 ≤ version)) }
{
    Ok(VersionCells {
        version: count_cell(version)?,
    })
}

fn update_version<S: Alter>(
    tx: &mut Transaction<'_, S>,
    cells: &VersionCells,
) -> Result<usize, Fault>
    ensures frame { Frame S.Store tx.old.conn tx.new.conn }
    ensures runs { RunsInside set_version_text (given_version cells.now) (state S.Store tx.old.conn.now) (state S.Store tx.new.conn.now) result }
{
    run(
        tx,
        "UPDATE bank SET policy = ?1 WHERE id = 1",
        params![&cells.version],
    )
}

/// Writes the version of the policy.
pub fn set_version<S: Alter>(tx: &mut Transaction<'_, S>, version: u64) -> Result<(), Fault>
    ensures step { Step S.Store tx.old.conn tx.new.conn (λ s. record s { version = version }) result }
{
    let cells = cells_of(version)?;
    update_version(tx, &cells)?;
    Ok(())
}
