//! How many slips each user has, in a table with one row per user.

ghost use Rattle.std.specs.Prelude.{◌≡◌, ◌==◌, ◌∷◌, [], pos, IfOk};
ghost use Rattle.std.specs.List.{find};
ghost use Rattle.sqlite.specs.declared.types.Value.TheVariants.{Int};
ghost use Rattle.sql_schema.specs.Shown.{shown_slip_count};
ghost use Rattle.sqlite.specs.Held.{state};
ghost use Rattle.keyed_rows.specs.Ordered.{add_row};
ghost use Rattle.book_kept.specs.Sheets.{set_row, slip_no};
ghost use Rattle.sql_schema.specs.Steps.{FindsHeld, Reads, Step};

use crate::by_law::{Listed, add_by, set_by};
use book_kept::SlipCount;
use money::Fault;
use sql_schema::{count_cell, picked, select_slip_counts};
use sqlite::{Alter, Transaction, params};

impl Listed for SlipCount {
    ghost use Rattle.sql_releases.specs.SlipCountLaws.{with_counts};

    ghost list = { λ s. s.slip_counts };

    ghost with_list = { with_counts };
}

/// What is given with the statements that write a count.
#[derive(Clone, Copy)]
struct CountCells {
    user: u32,
    slips: i64,
}

fn cells_of(count: &SlipCount) -> Result<CountCells, Fault>
    ensures cells { IfOk result (λ c. Int (pos c.user) ∷ Int c.slips ∷ [] ≡ shown_slip_count count.now) }
{
    Ok(CountCells {
        user: count.user,
        slips: count_cell(count.slips)?,
    })
}

/// How many slips the user of this number has, if there is a row for them.
pub fn slip_count_of<S: Alter>(
    tx: &mut Transaction<'_, S>,
    user: u32,
) -> Result<Option<SlipCount>, Fault>
    ensures reads { Reads S.Store tx.old.conn tx.new.conn result }
    ensures found { FindsHeld (state S.Store tx.old.conn.now) (state S.Store tx.new.conn.now) result (λ s found. found ≡ find (λ c. slip_no c == user) s.slip_counts) }
{
    picked(tx, select_slip_counts!("WHERE user_no = ?1"), params![user])
}

/// Adds a count. One of its user that is there already is a fault of the disk, and a count of more than 63 bits one of size.
pub fn add_slip_count<S: Alter>(tx: &mut Transaction<'_, S>, count: &SlipCount) -> Result<(), Fault>
    ensures step { Step S.Store tx.old.conn tx.new.conn (λ s. record s { slip_counts = add_row slip_no count.now s.slip_counts }) result }
{
    let cells = cells_of(count)?;
    add_by(
        tx,
        "INSERT INTO slip_counts (user_no, slips) VALUES (?1, ?2)",
        params![cells.user, &cells.slips],
        count,
    )
}

/// Writes this count in place of the one of its user. Where there is none it writes nothing. A count of more than 63 bits is a fault of size.
pub fn set_slip_count<S: Alter>(tx: &mut Transaction<'_, S>, count: &SlipCount) -> Result<(), Fault>
    ensures step { Step S.Store tx.old.conn tx.new.conn (λ s. record s { slip_counts = set_row slip_no count.now s.slip_counts }) result }
{
    let cells = cells_of(count)?;
    set_by(
        tx,
        "UPDATE slip_counts SET slips = ?2 WHERE user_no = ?1",
        params![cells.user, &cells.slips],
        count,
    )
}
