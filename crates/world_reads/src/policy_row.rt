//! A line of the policy of any kind, the key that says which line it is, and the order of keys.

ghost use Rattle.std.specs.Prelude.{◌≡◌};
ghost use Rattle.world_reads.specs.PolicyListing.{columns_of, is_before, is_after, key_of, kind_of};

use bank_policy::{
    Certifier, Member, Relation, Triple, User, certifier_number, relation_number, triple_number,
};
use bank_terms::Procedure;

/// A member of a set, at its place.
#[derive(Clone, Copy, Debug, PartialEq, Eq)]
pub struct SetMember {
    /// The set, 1 to 999,999,999.
    pub set: u32,
    /// Its place among the members of the set, 1 to 32.
    pub place: u64,
    /// The interval.
    pub member: Member,
}

/// A line of the policy.
#[derive(Debug, Drop)]
pub enum PolicyRow {
    /// A user.
    User(User),
    /// That a user may certify a procedure.
    Certifier(Certifier),
    /// A member of a set.
    Member(SetMember),
    /// That a procedure is certified on a set.
    Relation(Relation),
    /// That a user may carry out a procedure on a set.
    Triple(Triple),
}

/// Which line of the policy: its kind and its key columns.
#[derive(Clone, Copy, Debug, PartialEq, Eq)]
pub enum PolicyKey {
    /// A user.
    User {
        /// The user's number, 1 to 9,999.
        user: u32,
    },
    /// A certifier.
    Certifier {
        /// Who may certify.
        user: u32,
        /// What they may certify.
        procedure: Procedure,
    },
    /// A member of a set.
    Member {
        /// The set, 1 to 999,999,999.
        set: u32,
        /// The place in it, 1 to 32.
        place: u64,
    },
    /// A certified relation.
    Relation {
        /// What is certified.
        procedure: Procedure,
        /// The set that it is certified on.
        set: u32,
    },
    /// A triple.
    Triple {
        /// Who may.
        user: u32,
        /// What they may carry out.
        procedure: Procedure,
        /// On which set.
        set: u32,
    },
}

impl PolicyRow {
    /// Which line it is.
    pub fn key(&self) -> PolicyKey
        ensures { result ≡ key_of self.now }
    {
        match self {
            PolicyRow::User(row) => PolicyKey::User { user: row.user },
            PolicyRow::Certifier(row) => PolicyKey::Certifier {
                user: row.user,
                procedure: row.procedure,
            },
            PolicyRow::Member(row) => PolicyKey::Member {
                set: row.set,
                place: row.place,
            },
            PolicyRow::Relation(row) => PolicyKey::Relation {
                procedure: row.procedure,
                set: row.set,
            },
            PolicyRow::Triple(row) => PolicyKey::Triple {
                user: row.user,
                procedure: row.procedure,
                set: row.set,
            },
        }
    }
}

impl PolicyKey {
    /// Whether the line of this key is listed before that of the other.
    pub fn is_before(self, other: PolicyKey) -> bool
        ensures { result ≡ is_before self other }
    {
        self.kind() < other.kind()
            || self.kind() == other.kind() && self.columns() < other.columns()
    }

    /// Whether the line of this key is listed after that of the other, or there is no other.
    pub(crate) fn is_after(self, other: Option<PolicyKey>) -> bool
        ensures { result ≡ is_after other self }
    {
        match other {
            Some(key) => key.is_before(self),
            None => true,
        }
    }

    /// The place of its kind in the listing, 1 to 5.
    fn kind(self) -> u8
        ensures { result ≡ kind_of self }
    {
        match self {
            PolicyKey::User { .. } => 1,
            PolicyKey::Certifier { .. } => 2,
            PolicyKey::Member { .. } => 3,
            PolicyKey::Relation { .. } => 4,
            PolicyKey::Triple { .. } => 5,
        }
    }

    /// Its key columns as one number.
    fn columns(self) -> u128
        ensures { result ≡ columns_of self }
    {
        match self {
            PolicyKey::User { user } => user as u128,
            PolicyKey::Certifier { user, procedure } => certifier_number(user, procedure),
            PolicyKey::Member { set, place } => set as u128 * (1 << 64) + place as u128,
            PolicyKey::Relation { procedure, set } => relation_number(procedure, set),
            PolicyKey::Triple {
                user,
                procedure,
                set,
            } => triple_number(user, procedure, set),
        }
    }
}
