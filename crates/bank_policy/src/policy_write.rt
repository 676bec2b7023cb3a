//! The changes that may be made to a policy, and to a user's session, as data.

use crate::rows::{Certifier, ItemSet, Relation, Triple, User};
use bank_terms::Procedure;
use keyed_rows::Change;

/// A user's latest session from now on.
#[derive(Clone, Copy, Debug, PartialEq, Eq)]
pub struct Session {
    /// The user, 1 to 9,999.
    pub user: u32,
    /// Its number, 0 to 999,999,999.
    pub session: u32,
    /// Whether it is open.
    pub on: bool,
}

/// Whether a user is suspended from now on.
#[derive(Clone, Copy, Debug, PartialEq, Eq)]
pub struct Suspension {
    /// The user, 1 to 9,999.
    pub user: u32,
    /// Whether the user is suspended, and otherwise restored.
    pub suspended: bool,
}

/// A relation by its key, without who certified it.
#[derive(Clone, Copy, Debug, PartialEq, Eq)]
pub struct RelationKey {
    /// What is certified.
    pub procedure: Procedure,
    /// The set that it is certified on, 1 to 999,999,999.
    pub set: u32,
}

/// A triple by its key, without its limit and its moments.
#[derive(Clone, Copy, Debug, PartialEq, Eq)]
pub struct TripleKey {
    /// Whose triple it is, 1 to 9,999.
    pub user: u32,
    /// What the user may carry out.
    pub procedure: Procedure,
    /// On which items, 1 to 999,999,999.
    pub set: u32,
}

/// One change of the policy. A user's session is no part of it.
#[derive(Debug, Drop)]
pub enum PolicyWrite {
    /// A new user.
    User(User),
    /// A new set.
    Set(ItemSet),
    /// A relation that is certified.
    Relation(Relation),
    /// A relation that is certified no longer. Its triples, whosever they are, are taken back with it.
    NoRelation(RelationKey),
    /// A triple that is given.
    Triple(Triple),
    /// A triple that is taken back.
    NoTriple(TripleKey),
    /// A new certifier.
    Certifier(Certifier),
    /// A certifier who is one no longer.
    NoCertifier(Certifier),
    /// A user who is suspended or restored. Either way the session is closed.
    Suspended(Suspension),
}

impl Change<User> for Session {
    ghost use Rattle.std.specs.Prelude.{refl};
    ghost use Rattle.bank_policy.specs.PolicyWrites.{in_session};

    ghost made = { in_session };

    ghost keeps_key = { λ session user. refl };

    fn change(&self, user: &mut User) {
        user.session = self.session;
        user.on = self.on;
    }
}

impl Change<User> for Suspension {
    ghost use Rattle.std.specs.Prelude.{refl};
    ghost use Rattle.bank_policy.specs.PolicyWrites.{in_suspension};

    ghost made = { in_suspension };

    ghost keeps_key = { λ suspension user. refl };

    fn change(&self, user: &mut User) {
        user.suspended = self.suspended;
        user.on = false;
    }
}
