//! The account of the least number that members of sets hold, found with no other account read.

ghost use Rattle.std.specs.Prelude.{◌≡◌, IsTrue};
ghost use Rattle.std.specs.List.{find};
ghost use Rattle.sqlite.specs.Held.{state};
ghost use Rattle.sqlite.specs.State.{HasCleanDisk};
ghost use Rattle.sql_schema.specs.Steps.{FindsHeld, FindsHeldInside, Reads, Step};
ghost use Rattle.store_sql.specs.LeastShown.{is_held_above, is_shown_by, least_by};

use crate::least_rows::{lower_of, reach};
use bank_books::AccountRecord;
use bank_policy::{HeldRow, Member};
use money::Fault;
use sql_books::least_account;
use sqlite::{Alter, Transaction};

/// The least account above a number that this member holds.
fn least_in<S: Alter>(
    tx: &mut Transaction<'_, S>,
    member: &Member,
    after: u32,
) -> Result<Option<AccountRecord>, Fault>
    ensures reads { Reads S.Store tx.old.conn tx.new.conn result }
    ensures found { FindsHeld (state S.Store tx.old.conn.now) (state S.Store tx.new.conn.now) result (λ s row. row ≡ find (is_shown_by after member.now) s.accounts) }
{
    let numbers = reach(member, after);
    least_account(tx, numbers.low, numbers.high)
}

/// The least of this account and of those above a number that these members hold.
fn least_among<S: Alter>(
    tx: &mut Transaction<'_, S>,
    members: &[Member],
    after: u32,
    best: Option<AccountRecord>,
) -> Result<Option<AccountRecord>, Fault>
    ensures step { Step S.Store tx.old.conn tx.new.conn (λ s. s) result }
    ensures found { FindsHeldInside (state S.Store tx.old.conn.now) (state S.Store tx.new.conn.now) result (λ s row. row ≡ least_by s.accounts after members.now best) }
    ensures open { HasCleanDisk (state S.Store tx.new.conn.now) → IsTrue (state S.Store tx.new.conn.now).is_open → IsTrue (state S.Store tx.old.conn.now).is_open }
{
    let mut least = best;
    for member in members {
        let found = least_in(tx, member, after)?;
        least = lower_of(least, found);
    }
    Ok(least)
}

/// The least account above a number that the members of these triples' sets hold, or none.
pub fn least_of<S: Alter>(
    tx: &mut Transaction<'_, S>,
    held: &[HeldRow],
    after: u32,
) -> Result<Option<AccountRecord>, Fault>
    ensures step { Step S.Store tx.old.conn tx.new.conn (λ s. s) result }
    ensures found { FindsHeldInside (state S.Store tx.old.conn.now) (state S.Store tx.new.conn.now) result (λ s row. row ≡ find (is_held_above held.now after) s.accounts) }
    ensures open { HasCleanDisk (state S.Store tx.new.conn.now) → IsTrue (state S.Store tx.new.conn.now).is_open → IsTrue (state S.Store tx.old.conn.now).is_open }
{
    let mut least = None;
    for row in held {
        least = least_among(tx, row.members(), after, least)?;
    }
    Ok(least)
}
