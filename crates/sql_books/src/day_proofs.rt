//! The proofs of days that were closed, added to their table and never changed.

ghost use Rattle.std.specs.Prelude.{◌≡◌, ◌<◌, ◌^◌};
ghost use Rattle.sqlite.specs.Held.{state};
ghost use Rattle.bank_books.specs.Keys.{proof_key};
ghost use Rattle.book_kept.specs.Changes.{proof_sheets};
ghost use Rattle.book_kept.specs.Named.{IsFree};
ghost use Rattle.sql_schema.specs.Cells.{proof_cells};
ghost use Rattle.sql_schema.specs.Steps.{Frame, RunsInside, Step, Tells};
ghost use Rattle.sql_books.specs.Given.{given_proof};
ghost use Rattle.sql_books.specs.Texts.{add_proof_text};

use bank_books::Proof;
use money::Fault;
use sql_schema::run;
use sqlite::{Alter, Transaction, params};

/// What is given with the statement that adds a proof.
#[derive(Clone, Copy)]
struct ProofCells {
    branch: u32,
    day: u32,
    entries: u32,
    balance: i64,
    cash: i64,
}

fn cells_of(proof: &Proof) -> ProofCells
    ensures { given_proof result ≡ proof_cells proof.now }
{
    ProofCells {
        branch: proof.branch,
        day: proof.day,
        entries: proof.entries,
        balance: proof.balance.get(),
        cash: proof.cash.get(),
    }
}

fn insert_proof<S: Alter>(tx: &mut Transaction<'_, S>, cells: &ProofCells) -> Result<usize, Fault>
    ensures frame { Frame S.Store tx.old.conn tx.new.conn }
    ensures runs { RunsInside add_proof_text (given_proof cells.now) (state S.Store tx.old.conn.now) (state S.Store tx.new.conn.now) result }
    ensures small { cells.now.day < 2 ^ 32 }
{
    run(
        tx,
        "INSERT INTO proofs (branch, day, entries, balance, cash) VALUES (?1, ?2, ?3, ?4, ?5)",
        params![
            cells.branch,
            cells.day,
            cells.entries,
            &cells.balance,
            &cells.cash
        ],
    )
}

/// Adds the proof of a day. One of its branch and day that is there already is a fault of the disk.
pub fn add_proof<S: Alter>(tx: &mut Transaction<'_, S>, proof: &Proof) -> Result<(), Fault>
    ensures step { Step S.Store tx.old.conn tx.new.conn (proof_sheets proof.now) result }
    ensures free { Tells (state S.Store tx.old.conn.now) (state S.Store tx.new.conn.now) (λ s. IsFree proof_key s.proofs (proof_key proof.now)) result }
{
    let cells = cells_of(proof);
    insert_proof(tx, &cells)?;
    Ok(())
}
