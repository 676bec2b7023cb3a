//! The policy as lists in order of their keys, and functions that add a row or change nothing.

ghost use Rattle.std.specs.List.Sorted.{IsNonDecreasingBy};

use crate::policy_rows::PolicyRows;
use crate::policy_write::Session;
use crate::rows::{Certifier, ItemSet, Relation, Triple, User};
use keyed_rows::{change_rows, insert_row};
use std::alloc::{AllocError, Global};
use std::marker::Model;

/// The rows of the policy: plain lists, each in order of its key. What changes many of them at once takes
/// the rows out, whose room in memory it can see, and puts them back.
#[derive(Drop)]
pub struct Policy {
    rows: PolicyRows,
}

impl Model for Policy {
    ghost use Rattle.bank_policy.specs.Policy.{PolicyLists};

    ghost Value = { PolicyLists };

    ghost use Rattle.bank_policy.specs.PolicyRoom.{AreRowsInOrder, policy_of};

    ghost view = { λ p. policy_of p.rows };

    ghost invariant = { λ p. AreRowsInOrder p.rows };
}

impl Policy {
    ghost use Rattle.std.specs.Prelude.{◌≡◌, [], OnOk, OnErr};
    ghost use Rattle.keyed_rows.specs.Ordered.{add_row};
    ghost use Rattle.bank_policy.specs.PolicyKeys.{user_key, set_key, relation_key, triple_key, certifier_key};
    ghost use Rattle.bank_policy.specs.PolicyRoom.{AreRowsInOrder, policy_of};
    ghost use Rattle.bank_policy.specs.PolicyWrites.{with_session};

    /// A policy with no rows: no one may do anything.
    pub fn new(alloc: Global) -> Policy
        ensures { result ≡ record { users = []; sets = []; relations = []; triples = []; certifiers = [] } }
    {
        Policy {
            rows: PolicyRows::new(alloc),
        }
    }

    /// The policy of these rows, each list of which stands in order of its key.
    pub fn from_rows(rows: PolicyRows) -> Policy
        requires { AreRowsInOrder rows }
        ensures { result ≡ policy_of rows }
    {
        Policy { rows }
    }

    /// Its rows, to be changed.
    pub fn into_rows(self) -> PolicyRows
        ensures value { policy_of result ≡ self }
        ensures in_order { AreRowsInOrder result }
    {
        self.rows
    }

    /// Makes this the latest session of its user, if there is such a user. It takes no memory.
    pub fn set_session(&mut self, to: Session)
        ensures { self.new ≡ record self.old { users = with_session to self.old.users } }
    {
        change_rows(&mut self.rows.users, to.user as u128, &to);
    }

    /// The users, by number.
    pub fn users(&self) -> &[User]
        ensures value { result.now ≡ self.now.users }
        ensures in_order { IsNonDecreasingBy user_key self.now.users }
    {
        &self.rows.users
    }

    /// The sets, by number.
    pub fn sets(&self) -> &[ItemSet]
        ensures value { result.now ≡ self.now.sets }
        ensures in_order { IsNonDecreasingBy set_key self.now.sets }
    {
        &self.rows.sets
    }

    /// The certified relations, by procedure, then set.
    pub fn relations(&self) -> &[Relation]
        ensures value { result.now ≡ self.now.relations }
        ensures in_order { IsNonDecreasingBy relation_key self.now.relations }
    {
        &self.rows.relations
    }

    /// The triples, by user, then procedure, then set.
    pub fn triples(&self) -> &[Triple]
        ensures value { result.now ≡ self.now.triples }
        ensures in_order { IsNonDecreasingBy triple_key self.now.triples }
    {
        &self.rows.triples
    }

    /// The certifiers, by user, then procedure.
    pub fn certifiers(&self) -> &[Certifier]
        ensures value { result.now ≡ self.now.certifiers }
        ensures in_order { IsNonDecreasingBy certifier_key self.now.certifiers }
    {
        &self.rows.certifiers
    }

    /// Writes a user's row at its place. Where memory is refused the policy stays as it was.
    pub fn add_user(&mut self, user: User) -> Result<(), AllocError>
        ensures ok { OnOk result (self.new ≡ record self.old { users = add_row user_key user self.old.users }) }
        ensures err { OnErr result (self.new ≡ self.old) }
    {
        insert_row(&mut self.rows.users, user)
    }

    /// Writes a set at its place. Where memory is refused the policy stays as it was.
    pub fn add_set(&mut self, set: ItemSet) -> Result<(), AllocError>
        ensures ok { OnOk result (self.new ≡ record self.old { sets = add_row set_key set self.old.sets }) }
        ensures err { OnErr result (self.new ≡ self.old) }
    {
        insert_row(&mut self.rows.sets, set)
    }

    /// Writes a certified relation at its place. Where memory is refused the policy stays as it was.
    pub fn add_relation(&mut self, relation: Relation) -> Result<(), AllocError>
        ensures ok { OnOk result (self.new ≡ record self.old { relations = add_row relation_key relation self.old.relations }) }
        ensures err { OnErr result (self.new ≡ self.old) }
    {
        insert_row(&mut self.rows.relations, relation)
    }

    /// Writes a triple at its place. Where memory is refused the policy stays as it was.
    pub fn add_triple(&mut self, triple: Triple) -> Result<(), AllocError>
        ensures ok { OnOk result (self.new ≡ record self.old { triples = add_row triple_key triple self.old.triples }) }
        ensures err { OnErr result (self.new ≡ self.old) }
    {
        insert_row(&mut self.rows.triples, triple)
    }

    /// Writes a certifier's row at its place. Where memory is refused the policy stays as it was.
    pub fn add_certifier(&mut self, certifier: Certifier) -> Result<(), AllocError>
        ensures ok { OnOk result (self.new ≡ record self.old { certifiers = add_row certifier_key certifier self.old.certifiers }) }
        ensures err { OnErr result (self.new ≡ self.old) }
    {
        insert_row(&mut self.rows.certifiers, certifier)
    }
}
