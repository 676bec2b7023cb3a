//! What is known of the policy as it is now: its version, and what the rows of users say.

ghost use Rattle.std.specs.Prelude.{◌≡◌, ◌<◌, IfSome};
ghost use Rattle.bank_books.specs.WorldLists.{WorldLists};
ghost use Rattle.world_reads.specs.PolicyReads.{user_record};
ghost use Rattle.store_cached.specs.Users.{AreOfUsers};

use store_rows::UserRecord;

/// How many users' rows are kept at most.
pub const MAX_USERS: usize = 16;

/// What the row of a user says, or that there is no such user.
#[derive(Clone, Copy, Debug)]
pub struct KnownUser {
    /// The number of the user.
    pub user: u32,
    /// What the row says.
    pub row: Option<UserRecord>,
}

/// The version of the policy, and the users that were read since a plan changed any.
#[derive(Clone, Copy, Debug)]
pub struct Known {
    /// The version, 0 to 999,999,999,999.
    pub version: u64,
    /// The users, each at the place of its number.
    pub users: [Option<KnownUser>; MAX_USERS],
}

/// The place where the row of a user is kept.
fn place_of(user: u32) -> usize
    ensures { result < 16 }
{
    user as usize % MAX_USERS
}

impl Known {
    /// A version, and nothing of users.
    pub fn new(version: u64) -> Known
        ensures version { result.version ≡ version }
        ensures users { (w : WorldLists) → AreOfUsers w result.users }
    {
        Known {
            version,
            users: [None; MAX_USERS],
        }
    }

    /// What is kept of a user.
    pub fn recall(&self, user: u32) -> Option<Option<UserRecord>>
        ensures { IfSome result (λ row. (w : WorldLists) → AreOfUsers w self.now.users → row ≡ user_record w user) }
    {
        let kept = self.users[place_of(user)];
        match kept {
            Some(kept) if kept.user == user => Some(kept.row),
            _ => None,
        }
    }

    /// Keeps what was read of a user.
    pub fn keep(&mut self, user: u32, row: Option<UserRecord>)
        ensures users { (w : WorldLists) → AreOfUsers w self.old.users → row ≡ user_record w user → AreOfUsers w self.new.users }
        ensures version { self.new.version ≡ self.old.version }
    {
        self.users[place_of(user)] = Some(KnownUser { user, row });
    }

    /// Gives up what is kept of users.
    pub fn forget_users(&mut self)
        ensures users { (w : WorldLists) → AreOfUsers w self.new.users }
        ensures version { self.new.version ≡ self.old.version }
    {
        self.users = [None; MAX_USERS];
    }
}
