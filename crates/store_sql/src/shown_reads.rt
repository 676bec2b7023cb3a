//! The accounts that members of sets hold, found one after another, each with no other account read.
//! That no account outside a user's sets is read is so by the code, as no contract sees a read.

ghost use Rattle.std.specs.Prelude.{◌≡◌, map, take, IsTrue};
ghost use Rattle.std.specs.List.{filter};
ghost use Rattle.sqlite.specs.Held.{state};
ghost use Rattle.sqlite.specs.State.{HasCleanDisk};
ghost use Rattle.bank_policy.specs.HeldRows.{is_triple_of};
ghost use Rattle.bank_policy.specs.Tests.{current};
ghost use Rattle.bank_terms.specs.declared.procedure.Procedure.TheVariants as procedure;
ghost use Rattle.sql_policy.specs.HeldRows.{held_in};
ghost use Rattle.sql_schema.specs.Steps.{FindsHeldInside, Reads, Step};
ghost use Rattle.store_sql.specs.LeastShown.{is_held_above};

use crate::least_reads::least_of;
use bank_books::AccountRecord;
use bank_policy::{HeldRow, keep_current};
use bank_terms::Procedure;
use money::Fault;
use sqlite::{Alter, Transaction};
use std::alloc::Global;

/// The user's triples for the list of accounts, those valid at the moment, each with the members of its set.
pub fn accounts_triples<S: Alter>(
    alloc: Global,
    tx: &mut Transaction<'_, S>,
    user: u32,
    moment: u64,
) -> Result<Vec<HeldRow>, Fault>
    ensures reads { Reads S.Store tx.old.conn tx.new.conn result }
    ensures found { FindsHeldInside (state S.Store tx.old.conn.now) (state S.Store tx.new.conn.now) result (λ s rows. rows.items ≡ current moment (map (held_in s) (filter (is_triple_of user procedure.Accounts) s.triples))) }
{
    let mut held = sql_policy::triples_of(alloc, tx, user, Procedure::Accounts)?;
    keep_current(&mut held, moment);
    Ok(held)
}

/// The accounts above a number that the members of these triples' sets hold, by number, each once,
/// at most `count`.
pub fn held_above<S: Alter>(
    alloc: Global,
    tx: &mut Transaction<'_, S>,
    held: &[HeldRow],
    after: u32,
    count: u32,
) -> Result<Vec<AccountRecord>, Fault>
    ensures step { Step S.Store tx.old.conn tx.new.conn (λ s. s) result }
    ensures found { FindsHeldInside (state S.Store tx.old.conn.now) (state S.Store tx.new.conn.now) result (λ s rows. rows.items ≡ take count (filter (is_held_above held.now after) s.accounts)) }
    ensures open { HasCleanDisk (state S.Store tx.new.conn.now) → IsTrue (state S.Store tx.new.conn.now).is_open → IsTrue (state S.Store tx.old.conn.now).is_open }
{
    let mut rows = Vec::new(alloc);
    let mut last = after;
    for place in 0..count {
        match least_of(tx, held, last)? {
            Some(row) => {
                last = row.row.account;
                rows.push(row)?;
            }
            None => return Ok(rows),
        }
    }
    Ok(rows)
}
