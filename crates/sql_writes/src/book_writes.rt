//! Changes of the books, written to their tables: each writes its row and the numbers that it moves.

ghost use Rattle.std.specs.Prelude.{◌≡◌, ◌+◌, ◌==◌, ◌<◌, ◌≤◌, ◌^◌, IfErr, IfOk, Some, OnOk};
ghost use Rattle.std.specs.List.{find};
ghost use Rattle.money.specs.declared.fault.Fault.TheVariants.{Size};
ghost use Rattle.sqlite.specs.Held.{state};
ghost use Rattle.keyed_rows.specs.Ordered.{add_row};
ghost use Rattle.bank_books.specs.Effects.{on_day, written};
ghost use Rattle.bank_books.specs.Keys.{release_key, slip_key};
ghost use Rattle.bank_books.specs.declared.row_write.RowWrite.TheVariants as write;
ghost use Rattle.book_kept.specs.Changes.{account_sheets, drawer_sheets, entry_sheets, vault_sheets};
ghost use Rattle.book_kept.specs.Named.{AreOfEntry, AreOfLine, IsAccountRow, IsBranchRow, IsFree, IsTellerRow};
ghost use Rattle.book_kept.specs.Sheets.{account_no, set_row, sheets_of, slip_no, user_no};
ghost use Rattle.sql_schema.specs.Steps.{FindsHeldInside, Frame, Moves, Step, Tells};
ghost use Rattle.sql_writes.specs.Known.{AreKnownOf, FindsKnown, MovesKnown, TellsKnown};

use crate::known::KnownRows;
use crate::policy_writes::user_row;
use crate::required::required;
use bank_books::{
    Account, AccountRecord, BranchDay, BranchRecord, CashLine, Entry, Proof, Release, ReleaseKey,
    Slip,
};
use book_kept::{
    AccountRows, EntryRows, KeptTeller, KeptUser, LineRows, SlipCount, with_account,
    with_drawer_line, with_entry, with_release, with_vault_line,
};
use money::Fault;
use sql_books::{
    account_of, add_account, add_entry, add_line, add_proof, branch_of, set_account, set_branch,
    set_teller, teller_of,
};
use sql_policy::set_user;
use sql_releases::{add_release, add_slip, set_slip_count, slip_count_of, use_up};
use sqlite::{Alter, Transaction};

/// The account of this number. One that isn't there is a fault of the disk.
pub(crate) fn account_row<S: Alter>(
    tx: &mut Transaction<'_, S>,
    account: u32,
) -> Result<AccountRecord, Fault>
    ensures step { Step S.Store tx.old.conn tx.new.conn (λ s. s) result }
    ensures stated { FindsHeldInside (state S.Store tx.old.conn.now) (state S.Store tx.new.conn.now) result (λ s row. IsAccountRow s account row) }
{
    required(account_of(tx, account)?)
}

/// The teller of this number. One that isn't there is a fault of the disk.
fn teller_row<S: Alter>(tx: &mut Transaction<'_, S>, teller: u32) -> Result<KeptTeller, Fault>
    ensures step { Step S.Store tx.old.conn tx.new.conn (λ s. s) result }
    ensures stated { FindsHeldInside (state S.Store tx.old.conn.now) (state S.Store tx.new.conn.now) result (λ s row. IsTellerRow s teller row) }
{
    required(teller_of(tx, teller)?)
}

/// The branch of this number. One that isn't there is a fault of the disk.
fn branch_row<S: Alter>(tx: &mut Transaction<'_, S>, branch: u32) -> Result<BranchRecord, Fault>
    ensures step { Step S.Store tx.old.conn tx.new.conn (λ s. s) result }
    ensures stated { FindsHeldInside (state S.Store tx.old.conn.now) (state S.Store tx.new.conn.now) result (λ s row. IsBranchRow s branch row) }
{
    required(branch_of(tx, branch)?)
}

/// The account of this number, as it is known, or read. One that isn't there is a fault of the disk.
pub(crate) fn known_account<S: Alter>(
    tx: &mut Transaction<'_, S>,
    known: &KnownRows,
    account: u32,
) -> Result<AccountRecord, Fault>
    ensures step { Step S.Store tx.old.conn tx.new.conn (λ s. s) result }
    ensures stated { FindsKnown known.now (state S.Store tx.old.conn.now) (state S.Store tx.new.conn.now) result (λ w row. IsAccountRow (sheets_of w) account row) }
{
    match known.account(account) {
        Some(row) => Ok(row),
        None => account_row(tx, account),
    }
}

/// The teller of this number, as it is known, or read. One that isn't there is a fault of the disk.
fn known_teller<S: Alter>(
    tx: &mut Transaction<'_, S>,
    known: &KnownRows,
    teller: u32,
) -> Result<KeptTeller, Fault>
    ensures step { Step S.Store tx.old.conn tx.new.conn (λ s. s) result }
    ensures stated { FindsKnown known.now (state S.Store tx.old.conn.now) (state S.Store tx.new.conn.now) result (λ w row. IsTellerRow (sheets_of w) teller row) }
{
    match known.teller(teller) {
        Some(row) => Ok(KeptTeller::of(&row)),
        None => teller_row(tx, teller),
    }
}

/// The branch of this number, as it is known, or read. One that isn't there is a fault of the disk.
fn known_branch<S: Alter>(
    tx: &mut Transaction<'_, S>,
    known: &KnownRows,
    branch: u32,
) -> Result<BranchRecord, Fault>
    ensures step { Step S.Store tx.old.conn tx.new.conn (λ s. s) result }
    ensures stated { FindsKnown known.now (state S.Store tx.old.conn.now) (state S.Store tx.new.conn.now) result (λ w row. IsBranchRow (sheets_of w) branch row) }
{
    match known.branch(branch) {
        Some(row) => Ok(row),
        None => branch_row(tx, branch),
    }
}

/// The rows whose numbers an entry moves.
#[derive(Clone, Copy)]
pub(crate) struct EntryNames {
    pub(crate) account: AccountRecord,
    pub(crate) teller: KeptTeller,
    pub(crate) branch: BranchRecord,
}

/// The account, the teller and the branch of an entry, each as it is known, or read.
pub(crate) fn rows_of_entry<S: Alter>(
    tx: &mut Transaction<'_, S>,
    known: &KnownRows,
    entry: &Entry,
) -> Result<EntryNames, Fault>
    ensures step { Step S.Store tx.old.conn tx.new.conn (λ s. s) result }
    ensures stated { FindsKnown known.now (state S.Store tx.old.conn.now) (state S.Store tx.new.conn.now) result (λ w rows. AreOfEntry (sheets_of w) entry.now rows.account rows.teller rows.branch) }
{
    let account = known_account(tx, known, entry.account)?;
    let teller = known_teller(tx, known, entry.teller)?;
    let branch = known_branch(tx, known, entry.branch)?;
    Ok(EntryNames {
        account,
        teller,
        branch,
    })
}

/// Writes the rows that an entry moves, and the entry.
pub(crate) fn put_entry<S: Alter>(
    tx: &mut Transaction<'_, S>,
    rows: &EntryRows,
) -> Result<(), Fault>
    ensures step { Step S.Store tx.old.conn tx.new.conn (entry_sheets rows.now) result }
{
    add_entry(tx, &rows.entry)?;
    set_account(tx, &rows.account)?;
    set_teller(tx, &rows.teller)?;
    set_branch(tx, &rows.branch)
}

/// Writes an entry. One that is not the next of its account and of its branch is a fault of the disk, and changes nothing.
pub(crate) fn write_entry<S: Alter>(tx: &mut Transaction<'_, S>, entry: &Entry) -> Result<(), Fault>
    ensures frame { Frame S.Store tx.old.conn tx.new.conn }
    ensures moves { Moves (state S.Store tx.old.conn.now) (state S.Store tx.new.conn.now) (written (write.Entry entry.now)) result }
{
    let named = rows_of_entry(tx, &KnownRows::nothing(), entry)?;
    let rows = required(with_entry(&named.account, &named.teller, &named.branch, entry))?;
    put_entry(tx, &rows)
}

/// The rows whose numbers a line at a drawer moves.
#[derive(Clone, Copy)]
struct LineNames {
    teller: KeptTeller,
    branch: BranchRecord,
}

/// The teller and the branch of a line at a drawer.
fn rows_of_line<S: Alter>(tx: &mut Transaction<'_, S>, line: &CashLine) -> Result<LineNames, Fault>
    ensures step { Step S.Store tx.old.conn tx.new.conn (λ s. s) result }
    ensures stated { FindsHeldInside (state S.Store tx.old.conn.now) (state S.Store tx.new.conn.now) result (λ s rows. AreOfLine s line.now rows.teller rows.branch) }
{
    let teller = teller_row(tx, line.place)?;
    let branch = branch_row(tx, line.branch)?;
    Ok(LineNames { teller, branch })
}

/// Writes the rows that a line at a drawer moves, and the line.
fn put_drawer_line<S: Alter>(
    tx: &mut Transaction<'_, S>,
    line: &CashLine,
    rows: &LineRows,
) -> Result<(), Fault>
    ensures step { Step S.Store tx.old.conn tx.new.conn (drawer_sheets line.now rows.now) result }
{
    add_line(tx, line)?;
    set_teller(tx, &rows.teller)?;
    set_branch(tx, &rows.branch)
}

/// Writes a line at a drawer. One that is not the next of its branch is a fault of the disk, and changes nothing.
fn write_drawer_line<S: Alter>(tx: &mut Transaction<'_, S>, line: &CashLine) -> Result<(), Fault>
    ensures frame { Frame S.Store tx.old.conn tx.new.conn }
    ensures moves { Moves (state S.Store tx.old.conn.now) (state S.Store tx.new.conn.now) (written (write.Line line.now)) result }
{
    let named = rows_of_line(tx, line)?;
    let rows = required(with_drawer_line(&named.teller, &named.branch, line))?;
    put_drawer_line(tx, line, &rows)
}

/// Writes the branch that a line at the vault moves, and the line.
fn put_vault_line<S: Alter>(
    tx: &mut Transaction<'_, S>,
    line: &CashLine,
    branch: &BranchRecord,
) -> Result<(), Fault>
    ensures step { Step S.Store tx.old.conn tx.new.conn (vault_sheets line.now branch.now) result }
{
    add_line(tx, line)?;
    set_branch(tx, branch)
}

/// Writes a line at the vault. One that is not the next of its branch is a fault of the disk, and changes nothing.
fn write_vault_line<S: Alter>(tx: &mut Transaction<'_, S>, line: &CashLine) -> Result<(), Fault>
    ensures frame { Frame S.Store tx.old.conn tx.new.conn }
    ensures moves { Moves (state S.Store tx.old.conn.now) (state S.Store tx.new.conn.now) (written (write.Line line.now)) result }
{
    let branch = branch_row(tx, line.branch)?;
    let after = required(with_vault_line(&branch, line))?;
    put_vault_line(tx, line, &after)
}

/// Writes a line of a cash book.
pub(crate) fn write_line<S: Alter>(
    tx: &mut Transaction<'_, S>,
    line: &CashLine,
) -> Result<(), Fault>
    ensures frame { Frame S.Store tx.old.conn tx.new.conn }
    ensures moves { Moves (state S.Store tx.old.conn.now) (state S.Store tx.new.conn.now) (written (write.Line line.now)) result }
{
    if line.place == 0 {
        write_vault_line(tx, line)
    } else {
        write_drawer_line(tx, line)
    }
}

/// Writes a new account and the number of accounts of its home.
fn put_account<S: Alter>(tx: &mut Transaction<'_, S>, rows: &AccountRows) -> Result<(), Fault>
    ensures step { Step S.Store tx.old.conn tx.new.conn (account_sheets rows.now) result }
    ensures free { Tells (state S.Store tx.old.conn.now) (state S.Store tx.new.conn.now) (λ s. IsFree account_no s.accounts (account_no rows.now.account)) result }
{
    add_account(tx, &rows.account)?;
    set_branch(tx, &rows.home)
}

/// Writes a new account. One whose number is taken is a fault of the disk.
pub(crate) fn write_account<S: Alter>(
    tx: &mut Transaction<'_, S>,
    account: &Account,
) -> Result<(), Fault>
    ensures frame { Frame S.Store tx.old.conn tx.new.conn }
    ensures moves { Moves (state S.Store tx.old.conn.now) (state S.Store tx.new.conn.now) (written (write.Account account.now)) result }
{
    let home = branch_row(tx, account.home)?;
    let rows = required(with_account(&home, account))?;
    put_account(tx, &rows)
}

/// Writes the proof of a day that none proves yet.
pub(crate) fn write_proof<S: Alter>(tx: &mut Transaction<'_, S>, proof: &Proof) -> Result<(), Fault>
    ensures frame { Frame S.Store tx.old.conn tx.new.conn }
    ensures moves { Moves (state S.Store tx.old.conn.now) (state S.Store tx.new.conn.now) (written (write.Proof proof.now)) result }
{
    add_proof(tx, proof)
}

/// Writes that a release is used up.
pub(crate) fn write_used<S: Alter>(
    tx: &mut Transaction<'_, S>,
    key: &ReleaseKey,
) -> Result<(), Fault>
    ensures frame { Frame S.Store tx.old.conn tx.new.conn }
    ensures moves { Moves (state S.Store tx.old.conn.now) (state S.Store tx.new.conn.now) (written (write.Used key.now)) result }
{
    use_up(tx, key)
}

/// The branch on this day.
fn on_day(branch: &BranchRecord, day: u32) -> BranchRecord
    ensures { result ≡ record branch.now { row = on_day day branch.now.row } }
{
    let mut after = *branch;
    after.row.day = day;
    after
}

/// Writes the next day of a branch.
pub(crate) fn write_day<S: Alter>(tx: &mut Transaction<'_, S>, day: &BranchDay) -> Result<(), Fault>
    ensures frame { Frame S.Store tx.old.conn tx.new.conn }
    ensures moves { Moves (state S.Store tx.old.conn.now) (state S.Store tx.new.conn.now) (written (write.Day day.now)) result }
{
    let branch = branch_row(tx, day.branch)?;
    let after = on_day(&branch, day.day);
    set_branch(tx, &after)
}

/// Writes a release and its user, who has one more.
fn put_release<S: Alter>(
    tx: &mut Transaction<'_, S>,
    release: &Release,
    user: &KeptUser,
) -> Result<(), Fault>
    ensures step { Step S.Store tx.old.conn tx.new.conn (λ s. record s { releases = add_row release_key release.now s.releases; users = set_row user_no user.now s.users }) result }
{
    add_release(tx, release)?;
    set_user(tx, user)
}

/// Writes a release. One that is not the next of its user is a fault of the disk, and changes nothing.
pub(crate) fn write_release<S: Alter>(
    tx: &mut Transaction<'_, S>,
    release: &Release,
) -> Result<(), Fault>
    ensures frame { Frame S.Store tx.old.conn tx.new.conn }
    ensures moves { Moves (state S.Store tx.old.conn.now) (state S.Store tx.new.conn.now) (written (write.Release release.now)) result }
{
    let mut user = user_row(tx, release.user)?;
    let releases = required(with_release(user.releases, release))?;
    user.releases = releases;
    put_release(tx, release, &user)
}

/// How many slips this user has. Where there is no row for the user it is a fault of the disk.
fn slip_count_row<S: Alter>(tx: &mut Transaction<'_, S>, user: u32) -> Result<SlipCount, Fault>
    ensures step { Step S.Store tx.old.conn tx.new.conn (λ s. s) result }
    ensures stated { FindsHeldInside (state S.Store tx.old.conn.now) (state S.Store tx.new.conn.now) result (λ s row. find (λ c. slip_no c == user) s.slip_counts ≡ Some row) }
{
    required(slip_count_of(tx, user)?)
}

/// One slip more. More than there are numbers for is a fault of size.
fn one_more(count: &SlipCount) -> Result<SlipCount, Fault>
    ensures ok { IfOk result (λ after. after ≡ record count.now { slips = count.now.slips + 1 }) }
    ensures err { IfErr result (λ fault. (fault ≡ Size) × (2 ^ 64 ≤ count.now.slips + 1)) }
{
    match count.slips.checked_add(1) {
        Some(slips) => Ok(SlipCount {
            user: count.user,
            slips,
        }),
        None => Err(Fault::Size),
    }
}

/// Writes a slip and how many its user has.
fn put_slip<S: Alter>(
    tx: &mut Transaction<'_, S>,
    slip: &Slip,
    count: &SlipCount,
) -> Result<(), Fault>
    ensures step { Step S.Store tx.old.conn tx.new.conn (λ s. record s { slips = add_row slip_key slip.now s.slips; slip_counts = set_row slip_no count.now s.slip_counts }) result }
    ensures free { Tells (state S.Store tx.old.conn.now) (state S.Store tx.new.conn.now) (λ s. IsFree slip_key s.slips (slip_key slip.now)) result }
    ensures small { slip.now.number < 2 ^ 32 }
{
    add_slip(tx, slip)?;
    set_slip_count(tx, count)
}

/// How many slips this user has, as it is known, or read. Where there is no row for the user it is a fault of the disk.
fn known_slip_count<S: Alter>(
    tx: &mut Transaction<'_, S>,
    known: &KnownRows,
    user: u32,
) -> Result<SlipCount, Fault>
    ensures step { Step S.Store tx.old.conn tx.new.conn (λ s. s) result }
    ensures stated { FindsKnown known.now (state S.Store tx.old.conn.now) (state S.Store tx.new.conn.now) result (λ w row. find (λ c. slip_no c == user) (sheets_of w).slip_counts ≡ Some row) }
{
    match known.slip_count(user) {
        Some(count) => Ok(count),
        None => slip_count_row(tx, user),
    }
}

/// Writes a slip, and then knows how many its user has. One of its user and number that is there already is a fault of the disk.
pub(crate) fn write_slip<S: Alter>(
    tx: &mut Transaction<'_, S>,
    known: &mut KnownRows,
    slip: &Slip,
) -> Result<(), Fault>
    ensures frame { Frame S.Store tx.old.conn tx.new.conn }
    ensures moves { MovesKnown known.old (state S.Store tx.old.conn.now) (state S.Store tx.new.conn.now) (written (write.Slip slip.now)) result }
    ensures known { TellsKnown known.old (state S.Store tx.old.conn.now) (state S.Store tx.new.conn.now) result (λ w. AreKnownOf (written (write.Slip slip.now) w) known.new) }
{
    let count = known_slip_count(tx, known, slip.user())?;
    let after = one_more(&count)?;
    known.keep_slips(&after);
    put_slip(tx, slip, &after)
}
