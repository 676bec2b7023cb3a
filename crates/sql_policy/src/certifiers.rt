//! Which user may certify which procedure, read and written in the table of certifiers.

ghost use Rattle.std.specs.Prelude.{◌≡◌, ◌∷◌, [], pos, map};
ghost use Rattle.std.specs.List.{filter, list_any};
ghost use Rattle.sqlite.specs.Held.{state};
ghost use Rattle.sqlite.specs.declared.types.Value.TheVariants.{Int};
ghost use Rattle.keyed_rows.specs.Changed.{delete_rows};
ghost use Rattle.keyed_rows.specs.Ordered.{add_row};
ghost use Rattle.bank_terms.specs.Procedure.{number_of};
ghost use Rattle.bank_policy.specs.PolicyKeys.{certifier_key};
ghost use Rattle.book_kept.specs.Named.{IsFree};
ghost use Rattle.sql_schema.specs.Cells.{certifier_cells};
ghost use Rattle.sql_schema.specs.Steps.{FindsHeld, Frame, Reads, RunsInside, Step, Tells};
ghost use Rattle.sql_policy.specs.Tests.{is_certifier_of};
ghost use Rattle.sql_policy.specs.Texts.{add_certifier_text, remove_certifier_text};

use bank_policy::Certifier;
use bank_terms::Procedure;
use money::Fault;
use sql_schema::{plain_rows, run, select_certifiers};
use sqlite::{Alter, Row, Transaction, params};

/// The row of this user and the procedure of this number: one, or none.
fn select_certifier<S: Alter>(
    tx: &mut Transaction<'_, S>,
    user: u32,
    procedure: u32,
) -> Result<Vec<Row>, Fault>
    ensures reads { Reads S.Store tx.old.conn tx.new.conn result }
    ensures rows { FindsHeld (state S.Store tx.old.conn.now) (state S.Store tx.new.conn.now) result (λ s rows. rows.items ≡ map certifier_cells (filter (is_certifier_of user procedure) s.certifiers)) }
{
    plain_rows(
        tx,
        select_certifiers!("WHERE user_no = ?1 AND procedure = ?2"),
        params![user, procedure],
    )
}

/// Whether the user may certify the procedure.
pub fn is_certifier<S: Alter>(
    tx: &mut Transaction<'_, S>,
    user: u32,
    procedure: Procedure,
) -> Result<bool, Fault>
    ensures reads { Reads S.Store tx.old.conn tx.new.conn result }
    ensures found { FindsHeld (state S.Store tx.old.conn.now) (state S.Store tx.new.conn.now) result (λ s there. there ≡ list_any (is_certifier_of user (number_of procedure)) s.certifiers) }
{
    let rows = select_certifier(tx, user, procedure.number() as u32)?;
    Ok(!rows.is_empty())
}

fn insert_certifier<S: Alter>(
    tx: &mut Transaction<'_, S>,
    user: u32,
    procedure: u32,
) -> Result<usize, Fault>
    ensures frame { Frame S.Store tx.old.conn tx.new.conn }
    ensures runs { RunsInside add_certifier_text (Int (pos user) ∷ Int (pos procedure) ∷ []) (state S.Store tx.old.conn.now) (state S.Store tx.new.conn.now) result }
{
    run(
        tx,
        "INSERT INTO certifiers (user_no, procedure) VALUES (?1, ?2)",
        params![user, procedure],
    )
}

/// Adds a certifier. One that is there already is a fault of the disk.
pub fn add_certifier<S: Alter>(
    tx: &mut Transaction<'_, S>,
    certifier: &Certifier,
) -> Result<(), Fault>
    ensures step { Step S.Store tx.old.conn tx.new.conn (λ s. record s { certifiers = add_row certifier_key certifier.now s.certifiers }) result }
    ensures free { Tells (state S.Store tx.old.conn.now) (state S.Store tx.new.conn.now) (λ s. IsFree certifier_key s.certifiers (certifier_key certifier.now)) result }
{
    insert_certifier(tx, certifier.user, certifier.procedure.number() as u32)?;
    Ok(())
}

fn delete_certifier<S: Alter>(
    tx: &mut Transaction<'_, S>,
    user: u32,
    procedure: u32,
) -> Result<usize, Fault>
    ensures frame { Frame S.Store tx.old.conn tx.new.conn }
    ensures runs { RunsInside remove_certifier_text (Int (pos user) ∷ Int (pos procedure) ∷ []) (state S.Store tx.old.conn.now) (state S.Store tx.new.conn.now) result }
{
    run(
        tx,
        "DELETE FROM certifiers WHERE user_no = ?1 AND procedure = ?2",
        params![user, procedure],
    )
}

/// Takes a certifier away. One that isn't there is passed over.
pub fn remove_certifier<S: Alter>(
    tx: &mut Transaction<'_, S>,
    certifier: &Certifier,
) -> Result<(), Fault>
    ensures step { Step S.Store tx.old.conn tx.new.conn (λ s. record s { certifiers = delete_rows certifier_key (certifier_key certifier.now) s.certifiers }) result }
{
    delete_certifier(tx, certifier.user, certifier.procedure.number() as u32)?;
    Ok(())
}
