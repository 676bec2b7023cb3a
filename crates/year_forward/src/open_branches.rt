//! Which branch keeps its bank from the next year.

ghost use Rattle.std.specs.Prelude.{◌≡◌, ◌≢◌, ◌↔◌, Contains, IsTrue};
ghost use Rattle.bank_books.specs.Records.{kept_of};
ghost use Rattle.book_check.specs.Least.{IsFirstFailing, lesser_of};
ghost use Rattle.year_forward.specs.Closed.{IsBranchClosed, present_day};

use bank_books::{CashLine, Entry, Release, TellerRecord, World};
use book_sums::Kept;
use keyed_rows::find_row;

/// The least number of a branch that is not closed, or none exactly where the bank may begin its next year.
/// A branch is not closed while an entry, a cash line or a release bears its present day, or a drawer of it
/// is held or holds cash. It takes no memory.
pub fn first_open(world: &World, kept: &Kept) -> Option<u32>
    requires { kept.now ≡ kept_of world.now }
    ensures { IsFirstFailing (IsBranchClosed world.now) result }
{
    let entries = first_with(world, world.entries());
    let lines = first_with(world, world.lines());
    let releases = first_with(world, world.releases());
    let drawers = first_with(world, kept.tellers());
    lesser_of(lesser_of(entries, lines), lesser_of(releases, drawers))
}

/// A row of a branch, which may keep it open.
trait Closable {
    ghost use Rattle.std.specs.Prelude.{◌≡◌, ◌↔◌, ℕ, IsTrue};
    ghost use Rattle.bank_books.specs.WorldLists.{WorldLists};

    ghost branch: { Self → ℕ };

    ghost closed: { WorldLists → Self → Type 0 };

    /// The number of its branch.
    fn branch(&self) -> u32
        ensures { result ≡ branch self.now };

    /// Whether the branch may be closed with it.
    fn is_closed(&self, world: &World) -> bool
        ensures { IsTrue result ↔ closed world.now self.now };
}

/// The least branch that one of the rows keeps open, or none.
fn first_with<T: Closable>(world: &World, rows: &[T]) -> Option<u32>
    ensures { IsFirstFailing (λ branch. (row : T) → Contains rows.now row → T.branch row ≡ branch → T.closed world.now row) result }
{
    let mut least = None;
    for row in rows {
        if !row.is_closed(world) {
            least = lesser_of(least, Some(row.branch()));
        }
    }
    least
}

/// The lesser of two branches, where there are such.
fn lesser_of(first: Option<u32>, second: Option<u32>) -> Option<u32>
    ensures { result ≡ lesser_of first second }
{
    match (first, second) {
        (None, other) => other,
        (Some(one), None) => Some(one),
        (Some(one), Some(other)) => Some(one.min(other)),
    }
}

/// Whether the day is another than the present one of the branch.
fn is_other_day(world: &World, branch: u32, day: u32) -> bool
    ensures { IsTrue result ↔ (present_day world.now branch ≢ Some day) }
{
    match find_row(world.branches(), u128::from(branch)) {
        Some(row) => row.day != day,
        None => true,
    }
}

impl Closable for Entry {
    ghost use Rattle.std.specs.Prelude.{◌≢◌, Some};
    ghost use Rattle.year_forward.specs.Closed.{present_day};

    ghost branch = { λ e. e.branch };

    ghost closed = { λ w e. present_day w e.branch ≢ Some e.day };

    fn branch(&self) -> u32 {
        self.branch
    }

    fn is_closed(&self, world: &World) -> bool {
        is_other_day(world, self.branch, self.day)
    }
}

impl Closable for CashLine {
    ghost use Rattle.std.specs.Prelude.{◌≢◌, Some};
    ghost use Rattle.year_forward.specs.Closed.{present_day};

    ghost branch = { λ l. l.branch };

    ghost closed = { λ w l. present_day w l.branch ≢ Some l.day };

    fn branch(&self) -> u32 {
        self.branch
    }

    fn is_closed(&self, world: &World) -> bool {
        is_other_day(world, self.branch, self.day)
    }
}

impl Closable for Release {
    ghost use Rattle.std.specs.Prelude.{◌≢◌, Some};
    ghost use Rattle.year_forward.specs.Closed.{present_day};

    ghost branch = { λ r. r.branch };

    ghost closed = { λ w r. present_day w r.branch ≢ Some r.day };

    fn branch(&self) -> u32 {
        self.branch
    }

    fn is_closed(&self, world: &World) -> bool {
        is_other_day(world, self.branch, self.day)
    }
}

impl Closable for TellerRecord {
    ghost use Rattle.std.specs.Prelude.{◌≡◌, pos, None};

    ghost branch = { λ t. t.row.branch };

    ghost closed = { λ _ t. (t.holder ≡ None) × (t.cash ≡ pos 0) };

    fn branch(&self) -> u32 {
        self.row.branch
    }

    fn is_closed(&self, _: &World) -> bool {
        self.holder.is_none() && self.cash == 0
    }
}
