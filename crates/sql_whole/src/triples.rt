//! The triples as each schema version keeps them: without moments in the first, and with them from the second on.

ghost use Rattle.std.specs.Prelude.{◌≡◌, IfErr, IfOk, false};
ghost use Rattle.sqlite.specs.Held.{state};
ghost use Rattle.sql_schema.specs.Readable.{IsReadableTriple};
ghost use Rattle.sql_schema.specs.Steps.{IsReadOnly};
ghost use Rattle.sql_schema.specs.declared.edition.Edition.TheVariants.{First, Second, Third};
ghost use Rattle.sql_whole.specs.Tables.{AreTriples};
ghost use Rattle.sql_whole.specs.Faults.{IsOfDatabase};
ghost use Rattle.sql_whole.specs.Typed.{Each};
ghost use Rattle.sql_whole.specs.Whole.{IsAnswered, OnReadable, Reads};

use crate::fault::{ReadFault, Table};
use crate::table_row::whole_table;
use bank_policy::Triple;
use bank_terms::MAX_MOMENT;
use money::Fault;
use sql_schema::{Edition, TableRow, number_at, procedure_at, select_triples};
use sqlite::{Alter, Connection, Row};
use std::alloc::{AllocError, Global};
use std::marker::Model;

/// The query for the table that holds the triples.
pub(crate) fn query(edition: Edition) -> &'static str
    ensures { IsAnswered edition result.now }
{
    match edition {
        Edition::First => FIRST_QUERY,
        Edition::Second => GRANTS_QUERY,
        Edition::Third => GRANTS_QUERY,
    }
}

const FIRST_QUERY: &str =
    "SELECT user_no, procedure, set_no, ceiling FROM triples ORDER BY user_no, procedure, set_no";

const GRANTS_QUERY: &str = select_triples!("ORDER BY user_no, procedure, set_no");

/// All triples, by user, then procedure, then set.
pub fn all_triples<S: Alter>(
    alloc: Global,
    conn: &mut Connection<S>,
    edition: Edition,
) -> Result<Vec<Triple>, ReadFault>
    ensures mode { conn.old.in_transaction ≡ false → conn.new.in_transaction ≡ false }
    ensures whole { Reads edition (state S.Store conn.old) (state S.Store conn.new) (λ trees rows. AreTriples edition trees rows.items) result }
    ensures typed { IfOk result (λ rows. Each IsReadableTriple rows.items) }
    ensures takes { OnReadable edition (state S.Store conn.old) (state S.Store conn.new) (IfErr result IsOfDatabase) }
    ensures read_only { IsReadOnly (state S.Store conn.old) (state S.Store conn.new) result }
{
    match edition {
        Edition::First => first_triples(alloc, conn),
        Edition::Second => second_triples(alloc, conn),
        Edition::Third => third_triples(alloc, conn),
    }
}

/// Those of the table `triples`, each from the first moment to the last that there is.
fn first_triples<S: Alter>(
    alloc: Global,
    conn: &mut Connection<S>,
) -> Result<Vec<Triple>, ReadFault>
    ensures mode { conn.old.in_transaction ≡ false → conn.new.in_transaction ≡ false }
    ensures whole { Reads First (state S.Store conn.old) (state S.Store conn.new) (λ trees rows. AreTriples First trees rows.items) result }
    ensures typed { IfOk result (λ rows. Each IsReadableTriple rows.items) }
    ensures takes { OnReadable First (state S.Store conn.old) (state S.Store conn.new) (IfErr result IsOfDatabase) }
    ensures read_only { IsReadOnly (state S.Store conn.old) (state S.Store conn.new) result }
{
    let rows = whole_table(alloc, conn, Edition::First, FIRST_QUERY, Table::Triples)?;
    match triples_of(alloc, &rows) {
        Ok(triples) => Ok(triples),
        Err(_) => Err(ReadFault::Fault(Fault::Memory)),
    }
}

/// A triple as the table `triples` has it, without moments.
#[derive(Drop)]
struct FirstTriple {
    triple: Triple,
}

impl Model for FirstTriple {
    ghost use Rattle.bank_policy.specs.declared.rows.Triple.{Triple};

    ghost Value = { Triple };

    ghost view = { λ t. t.triple };
}

/// The triples that these rows are.
fn triples_of(alloc: Global, rows: &[FirstTriple]) -> Result<Vec<Triple>, AllocError>
    ensures { IfOk result (λ triples. triples.items ≡ rows.now) }
{
    let mut triples = Vec::with_capacity(alloc, rows.len())?;
    for row in rows {
        triples.push(row.triple)?;
    }
    Ok(triples)
}

impl TableRow for FirstTriple {
    ghost use Rattle.sql_schema.specs.Cells.{TripleFitsIn, triple_cells_in};
    ghost use Rattle.sql_schema.specs.Held.Sheet.{triples as in_triples};
    ghost use Rattle.sql_schema.specs.HeldRows.{all_but_rowid};
    ghost use Rattle.sql_schema.specs.Readable.{IsReadableTriple};
    ghost use Rattle.sql_schema.specs.declared.edition.Edition.TheVariants.{First};
    ghost use Rattle.bank_policy.specs.PolicyKeys.{triple_key};
    ghost use Rattle.sql_schema.specs.ReadBack.{stored_by_columns};

    ghost sheet = { in_triples };

    ghost cells = { triple_cells_in First };

    ghost key = { triple_key };

    ghost shows = { all_but_rowid };

    ghost stated = { stored_by_columns 4 };

    ghost shown = { triple_cells_in First };

    ghost fits = { TripleFitsIn First };

    ghost readable = { IsReadableTriple };

    fn read(_alloc: Global, row: &Row) -> Result<FirstTriple, Fault> {
        Ok(FirstTriple {
            triple: Triple {
                user: number_at(row, 0)?,
                procedure: procedure_at(row, 1)?,
                set: number_at(row, 2)?,
                limit: number_at(row, 3)?,
                first: 0,
                last: MAX_MOMENT,
            },
        })
    }
}

/// Those of the table `grants`, as the second schema version has it.
fn second_triples<S: Alter>(
    alloc: Global,
    conn: &mut Connection<S>,
) -> Result<Vec<Triple>, ReadFault>
    ensures mode { conn.old.in_transaction ≡ false → conn.new.in_transaction ≡ false }
    ensures whole { Reads Second (state S.Store conn.old) (state S.Store conn.new) (λ trees rows. AreTriples Second trees rows.items) result }
    ensures typed { IfOk result (λ rows. Each IsReadableTriple rows.items) }
    ensures takes { OnReadable Second (state S.Store conn.old) (state S.Store conn.new) (IfErr result IsOfDatabase) }
    ensures read_only { IsReadOnly (state S.Store conn.old) (state S.Store conn.new) result }
{
    whole_table(alloc, conn, Edition::Second, GRANTS_QUERY, Table::Triples)
}

/// Those of the table `grants`, as the third schema version has it.
fn third_triples<S: Alter>(
    alloc: Global,
    conn: &mut Connection<S>,
) -> Result<Vec<Triple>, ReadFault>
    ensures mode { conn.old.in_transaction ≡ false → conn.new.in_transaction ≡ false }
    ensures whole { Reads Third (state S.Store conn.old) (state S.Store conn.new) (λ trees rows. AreTriples Third trees rows.items) result }
    ensures typed { IfOk result (λ rows. Each IsReadableTriple rows.items) }
    ensures takes { OnReadable Third (state S.Store conn.old) (state S.Store conn.new) (IfErr result IsOfDatabase) }
    ensures read_only { IsReadOnly (state S.Store conn.old) (state S.Store conn.new) result }
{
    whole_table(alloc, conn, Edition::Third, GRANTS_QUERY, Table::Triples)
}
