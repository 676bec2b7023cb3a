//! What the rules of the books on giving a release read: how many its user has, and the present day of its branch.

ghost use Rattle.std.specs.Prelude.{◌≡◌, option_map};

use bank_books::BranchRecord;
use world_reads::UserRecord;

/// The rows that giving a release is judged on, as far as they are there.
#[derive(Clone, Copy, Debug, PartialEq, Eq)]
pub struct ReleaseRows {
    /// How many releases the user for whom it is has; none where that user isn't there.
    pub given: Option<u64>,
    /// The present day of the branch of the operation; none where the branch isn't there.
    pub today: Option<u32>,
}

impl ReleaseRows {
    /// Of the rows as a store answers them.
    pub fn of(beneficiary: Option<UserRecord>, branch: Option<BranchRecord>) -> ReleaseRows
        ensures { result ≡ record { given = option_map (λ u. u.releases) beneficiary; today = option_map (λ b. b.row.day) branch } }
    {
        ReleaseRows {
            given: beneficiary.map(|user| user.releases),
            today: branch.map(|branch| branch.row.day),
        }
    }
}
