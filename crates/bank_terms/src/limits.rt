//! The greatest and the least numbers of the policy, the books and the operations, and how many rows there may be.

/// The greatest key of an account, a teller, a branch or a set, and the greatest number of an entry, a
/// cash line, a turn or a session; the least is 1.
pub const MAX_KEY: u32 = 999_999_999;

/// The greatest number of a user; the least is 1.
pub const MAX_USER: u32 = 9_999;

/// The greatest day of a branch; the first is 1.
pub const MAX_DAY: u32 = 999_999;

/// The greatest moment, in seconds.
pub const MAX_MOMENT: u64 = 99_999_999_999;

/// How many accounts may have one branch as their home.
pub const MAX_ACCOUNTS: u64 = 100_000;

/// How many releases one user may be given.
pub const MAX_RELEASES: u32 = 100_000;

/// How many slips one user may have.
pub const MAX_SLIPS: u64 = 100_000;

/// How many sets a policy may have.
pub const MAX_SETS: usize = 9_999;

/// How many relations one procedure may have.
pub const MAX_RELATIONS: usize = 1_000;

/// How many triples one user may have.
pub const MAX_TRIPLES: usize = 1_000;

/// What a triple's limit, or one movement of cash, may come to, in cents.
pub const MAX_LIMIT: u32 = 999_999_999;

/// What one transfer may move, in cents: as much as one entry may add.
pub const MAX_TRANSFER: u32 = 999_999;

/// The least floor of an account, in cents.
pub const MIN_FLOOR: i32 = -999_999_999;

/// How many lines a listing may be asked for.
pub const MAX_LISTED: u32 = 1_000;

/// The greatest version of a policy.
pub const MAX_VERSION: u64 = 999_999_999_999;
