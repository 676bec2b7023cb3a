//! The slips in their table, each with its operation and its stored reply.

ghost use Rattle.std.specs.Prelude.{◌≡◌, ◌==◌, ◌<◌, ◌^◌};
ghost use Rattle.std.specs.List.{find};
ghost use Rattle.sqlite.specs.Held.{state};
ghost use Rattle.keyed_rows.specs.Ordered.{add_row};
ghost use Rattle.bank_books.specs.Keys.{slip_key, slip_number};
ghost use Rattle.book_kept.specs.Named.{IsFree};
ghost use Rattle.sql_schema.specs.Cells.{SlipFits, slip_cells};
ghost use Rattle.sql_schema.specs.Steps.{FindsHeld, Frame, Reads, RunsInside, Step, Tells};
ghost use Rattle.sql_releases.specs.Given.{given_slip};
ghost use Rattle.sql_releases.specs.Texts.{add_slip_text};

use bank_books::Slip;
use money::Fault;
use sql_schema::{picked, run, select_slips};
use sqlite::{Alter, Transaction, params};

/// The slip of this user and this number, if it is there.
pub fn slip_of<S: Alter>(
    tx: &mut Transaction<'_, S>,
    user: u32,
    number: u32,
) -> Result<Option<Slip>, Fault>
    ensures reads { Reads S.Store tx.old.conn tx.new.conn result }
    ensures found { FindsHeld (state S.Store tx.old.conn.now) (state S.Store tx.new.conn.now) result (λ s found. found ≡ find (λ r. slip_key r == slip_number user number) s.slips) }
{
    picked(
        tx,
        select_slips!("WHERE user_no = ?1 AND slip = ?2"),
        params![user, number],
    )
}

/// What is given with the statement that adds a slip, beside the bytes of its reply.
#[derive(Clone, Copy)]
struct SlipCells {
    user: u32,
    number: u32,
    form: u32,
    member1: i64,
    member2: i64,
    member3: i64,
    member4: i64,
    member5: i64,
    member6: i64,
    member7: i64,
    member8: i64,
}

fn cells_of(slip: &Slip) -> SlipCells
    ensures cells { given_slip result slip.now.reply ≡ slip_cells slip.now }
    ensures fits { SlipFits slip.now }
{
    let number = slip.number();
    let operation = slip.operation();
    SlipCells {
        user: slip.user(),
        number,
        form: operation.form.number() as u32,
        member1: operation.members[0],
        member2: operation.members[1],
        member3: operation.members[2],
        member4: operation.members[3],
        member5: operation.members[4],
        member6: operation.members[5],
        member7: operation.members[6],
        member8: operation.members[7],
    }
}

fn insert_slip<S: Alter>(
    tx: &mut Transaction<'_, S>,
    cells: &SlipCells,
    reply: &[u8],
) -> Result<usize, Fault>
    ensures frame { Frame S.Store tx.old.conn tx.new.conn }
    ensures runs { RunsInside add_slip_text (given_slip cells.now reply.now) (state S.Store tx.old.conn.now) (state S.Store tx.new.conn.now) result }
{
    run(
        tx,
        "INSERT INTO slips (user_no, slip, form, member1, member2, member3, member4, member5, member6, member7, member8, reply) VALUES (?1, ?2, ?3, ?4, ?5, ?6, ?7, ?8, ?9, ?10, ?11, ?12)",
        params![
            cells.user,
            cells.number,
            cells.form,
            &cells.member1,
            &cells.member2,
            &cells.member3,
            &cells.member4,
            &cells.member5,
            &cells.member6,
            &cells.member7,
            &cells.member8,
            reply
        ],
    )
}

/// Adds a slip. One of its user and number that is there already is a fault of the disk.
pub fn add_slip<S: Alter>(tx: &mut Transaction<'_, S>, slip: &Slip) -> Result<(), Fault>
    ensures step { Step S.Store tx.old.conn tx.new.conn (λ s. record s { slips = add_row slip_key slip.now s.slips }) result }
    ensures free { Tells (state S.Store tx.old.conn.now) (state S.Store tx.new.conn.now) (λ s. IsFree slip_key s.slips (slip_key slip.now)) result }
    ensures small { slip.now.number < 2 ^ 32 }
{
    let cells = cells_of(slip);
    insert_slip(tx, &cells, slip.reply())?;
    Ok(())
}
