//! The releases in their table: one is read by its key, added, or marked as used.

ghost use Rattle.std.specs.Prelude.{◌≡◌, ◌==◌, ◌<◌, ◌^◌, ◌∷◌, [], pos};
ghost use Rattle.std.specs.List.{find};
ghost use Rattle.sqlite.specs.Held.{state};
ghost use Rattle.sqlite.specs.declared.types.Value.TheVariants.{Int};
ghost use Rattle.keyed_rows.specs.Ordered.{add_row};
ghost use Rattle.bank_books.specs.Keys.{release_key, release_number};
ghost use Rattle.book_kept.specs.Changes.{used_sheets};
ghost use Rattle.sql_schema.specs.Cells.{ReleaseFits, release_cells};
ghost use Rattle.sql_schema.specs.Numbers.{truth_cell};
ghost use Rattle.sql_schema.specs.Steps.{FindsHeld, Frame, Reads, RunsInside, Step};
ghost use Rattle.sql_releases.specs.Given.{given_release};
ghost use Rattle.sql_releases.specs.Texts.{add_release_text, use_up_text};

use bank_books::{Release, ReleaseKey};
use money::Fault;
use sql_schema::{picked, run, select_releases};
use sqlite::{Alter, Transaction, params};

/// The release of this user and this number, if it is there.
pub fn release_of<S: Alter>(
    tx: &mut Transaction<'_, S>,
    user: u32,
    number: u32,
) -> Result<Option<Release>, Fault>
    ensures reads { Reads S.Store tx.old.conn tx.new.conn result }
    ensures found { FindsHeld (state S.Store tx.old.conn.now) (state S.Store tx.new.conn.now) result (λ s found. found ≡ find (λ r. release_key r == release_number user number) s.releases) }
{
    picked(
        tx,
        select_releases!("WHERE user_no = ?1 AND number = ?2"),
        params![user, number],
    )
}

/// What is given with the statement that adds a release.
#[derive(Clone, Copy)]
struct ReleaseCells {
    user: u32,
    number: u32,
    giver: u32,
    branch: u32,
    day: u32,
    form: u32,
    member1: i64,
    member2: i64,
    member3: i64,
    member4: i64,
    member5: i64,
    member6: i64,
    member7: i64,
    member8: i64,
    used: u32,
}

fn truth_number(truth: bool) -> u32
    ensures { Int (pos result) ≡ truth_cell truth }
{
    if truth { 1 } else { 0 }
}

fn cells_of(release: &Release) -> ReleaseCells
    ensures cells { given_release result ≡ release_cells release.now }
    ensures fits { ReleaseFits release.now }
{
    let number = release.number;
    ReleaseCells {
        user: release.user,
        number,
        giver: release.giver,
        branch: release.branch,
        day: release.day,
        form: release.operation.form.number() as u32,
        member1: release.operation.members[0],
        member2: release.operation.members[1],
        member3: release.operation.members[2],
        member4: release.operation.members[3],
        member5: release.operation.members[4],
        member6: release.operation.members[5],
        member7: release.operation.members[6],
        member8: release.operation.members[7],
        used: truth_number(release.used),
    }
}

fn insert_release<S: Alter>(
    tx: &mut Transaction<'_, S>,
    cells: &ReleaseCells,
) -> Result<usize, Fault>
    ensures frame { Frame S.Store tx.old.conn tx.new.conn }
    ensures runs { RunsInside add_release_text (given_release cells.now) (state S.Store tx.old.conn.now) (state S.Store tx.new.conn.now) result }
{
    run(
        tx,
        "INSERT INTO releases (user_no, number, giver, branch, day, form, member1, member2, member3, member4, member5, member6, member7, member8, used) VALUES (?1, ?2, ?3, ?4, ?5, ?6, ?7, ?8, ?9, ?10, ?11, ?12, ?13, ?14, ?15)",
        params![
            cells.user,
            cells.number,
            cells.giver,
            cells.branch,
            cells.day,
            cells.form,
            &cells.member1,
            &cells.member2,
            &cells.member3,
            &cells.member4,
            &cells.member5,
            &cells.member6,
            &cells.member7,
            &cells.member8,
            cells.used
        ],
    )
}

/// Adds a release. One of its user and number that is there already is a fault of the disk.
pub fn add_release<S: Alter>(tx: &mut Transaction<'_, S>, release: &Release) -> Result<(), Fault>
    ensures step { Step S.Store tx.old.conn tx.new.conn (λ s. record s { releases = add_row release_key release.now s.releases }) result }
{
    let cells = cells_of(release);
    insert_release(tx, &cells)?;
    Ok(())
}

fn update_used<S: Alter>(tx: &mut Transaction<'_, S>, key: &ReleaseKey) -> Result<usize, Fault>
    ensures frame { Frame S.Store tx.old.conn tx.new.conn }
    ensures runs { RunsInside use_up_text (Int (pos key.now.user) ∷ Int (pos key.now.number) ∷ []) (state S.Store tx.old.conn.now) (state S.Store tx.new.conn.now) result }
    ensures small { key.now.number < 2 ^ 32 }
{
    run(
        tx,
        "UPDATE releases SET used = 1 WHERE user_no = ?1 AND number = ?2",
        params![key.user, key.number],
    )
}

/// Marks the release of this key as used. One that isn't there is passed over.
pub fn use_up<S: Alter>(tx: &mut Transaction<'_, S>, key: &ReleaseKey) -> Result<(), Fault>
    ensures step { Step S.Store tx.old.conn tx.new.conn (used_sheets key.now) result }
{
    update_used(tx, key)?;
    Ok(())
}
