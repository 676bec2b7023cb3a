//! The users of the policy in their table, each with how many releases they were given.

ghost use Rattle.std.specs.Prelude.{◌≡◌, ◌==◌, ◌≤◌, ◌^◌, pos, IfErr, IfOk};
ghost use Rattle.std.specs.List.{find};
ghost use Rattle.money.specs.declared.fault.Fault.TheVariants.{Size};
ghost use Rattle.sqlite.specs.Held.{state};
ghost use Rattle.sqlite.specs.declared.types.Value.TheVariants.{Int};
ghost use Rattle.keyed_rows.specs.Ordered.{add_row};
ghost use Rattle.book_kept.specs.Named.{IsFree};
ghost use Rattle.book_kept.specs.Sheets.{set_row, user_no};
ghost use Rattle.sql_schema.specs.Numbers.{truth_cell};
ghost use Rattle.sql_schema.specs.Steps.{FindsHeld, Frame, Reads, RunsInside, Step, Tells};
ghost use Rattle.sql_schema.specs.Shown.{shown_user};
ghost use Rattle.sql_policy.specs.Given.{given_user};
ghost use Rattle.sql_policy.specs.Texts.{add_user_text, set_user_text};

use book_kept::KeptUser;
use money::Fault;
use sql_schema::{count_cell, picked, run, select_users};
use sqlite::{Alter, Transaction, params};

/// The user of this number, if there is one, with how many releases they were given.
pub fn user_of<S: Alter>(tx: &mut Transaction<'_, S>, user: u32) -> Result<Option<KeptUser>, Fault>
    ensures reads { Reads S.Store tx.old.conn tx.new.conn result }
    ensures found { FindsHeld (state S.Store tx.old.conn.now) (state S.Store tx.new.conn.now) result (λ s found. found ≡ find (λ u. user_no u == user) s.users) }
{
    picked(tx, select_users!("WHERE user_no = ?1"), params![user])
}

/// What is given with the statement that writes a user, beside the name.
#[derive(Clone, Copy)]
struct UserCells {
    user: u32,
    officer: u32,
    suspended: u32,
    session: u32,
    on: u32,
    releases: i64,
}

fn truth_number(truth: bool) -> u32
    ensures { Int (pos result) ≡ truth_cell truth }
{
    if truth { 1 } else { 0 }
}

fn cells_of(kept: &KeptUser) -> Result<UserCells, Fault>
    ensures cells { IfOk result (λ c. given_user c kept.now.row.name ≡ shown_user kept.now) }
    ensures err { IfErr result (λ fault. (fault ≡ Size) × (2 ^ 63 ≤ kept.now.releases)) }
{
    Ok(UserCells {
        user: kept.row.user,
        officer: truth_number(kept.row.officer),
        suspended: truth_number(kept.row.suspended),
        session: kept.row.session,
        on: truth_number(kept.row.on),
        releases: count_cell(kept.releases)?,
    })
}

fn insert_user<S: Alter>(
    tx: &mut Transaction<'_, S>,
    cells: &UserCells,
    name: &str,
) -> Result<usize, Fault>
    ensures frame { Frame S.Store tx.old.conn tx.new.conn }
    ensures runs { RunsInside add_user_text (given_user cells.now name.now) (state S.Store tx.old.conn.now) (state S.Store tx.new.conn.now) result }
{
    run(
        tx,
        "INSERT INTO users (user_no, name, officer, suspended, session, is_on, releases) VALUES (?1, ?2, ?3, ?4, ?5, ?6, ?7)",
        params![
            cells.user,
            name,
            cells.officer,
            cells.suspended,
            cells.session,
            cells.on,
            &cells.releases
        ],
    )
}

/// Adds a user. A number that is taken is a fault of the disk, and a count of releases over 63 bits one of size.
pub fn add_user<S: Alter>(tx: &mut Transaction<'_, S>, kept: &KeptUser) -> Result<(), Fault>
    ensures step { Step S.Store tx.old.conn tx.new.conn (λ s. record s { users = add_row user_no kept.now s.users }) result }
    ensures free { Tells (state S.Store tx.old.conn.now) (state S.Store tx.new.conn.now) (λ s. IsFree user_no s.users (user_no kept.now)) result }
{
    let cells = cells_of(kept)?;
    insert_user(tx, &cells, kept.row.name.as_str())?;
    Ok(())
}

fn update_user<S: Alter>(
    tx: &mut Transaction<'_, S>,
    cells: &UserCells,
    name: &str,
) -> Result<usize, Fault>
    ensures frame { Frame S.Store tx.old.conn tx.new.conn }
    ensures runs { RunsInside set_user_text (given_user cells.now name.now) (state S.Store tx.old.conn.now) (state S.Store tx.new.conn.now) result }
{
    run(
        tx,
        "UPDATE users SET name = ?2, officer = ?3, suspended = ?4, session = ?5, is_on = ?6, releases = ?7 WHERE user_no = ?1",
        params![
            cells.user,
            name,
            cells.officer,
            cells.suspended,
            cells.session,
            cells.on,
            &cells.releases
        ],
    )
}

/// Writes this user in place of the one of the same number. Where there is none it writes nothing. A count of releases
/// of more than 63 bits is a fault of size.
pub fn set_user<S: Alter>(tx: &mut Transaction<'_, S>, kept: &KeptUser) -> Result<(), Fault>
    ensures step { Step S.Store tx.old.conn tx.new.conn (λ s. record s { users = set_row user_no kept.now s.users }) result }
{
    let cells = cells_of(kept)?;
    update_user(tx, &cells, kept.row.name.as_str())?;
    Ok(())
}
