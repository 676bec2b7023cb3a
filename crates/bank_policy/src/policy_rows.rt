//! The lists of a policy taken out to be changed, in room that was made before.

use crate::policy_keys::{relation_number, triple_number};
use crate::policy_write::{PolicyWrite, RelationKey, Session};
use crate::rows::{Certifier, ItemSet, Relation, Triple, User};
use keyed_rows::{Keyed, change_rows, insert_row_reserved, remove_rows};
use std::alloc::{AllocError, Global};

/// The rows of a policy as lists.
#[derive(Debug, Drop)]
pub struct PolicyRows {
    /// The users.
    pub users: Vec<User>,
    /// The sets.
    pub sets: Vec<ItemSet>,
    /// The certified relations.
    pub relations: Vec<Relation>,
    /// The triples.
    pub triples: Vec<Triple>,
    /// The certifiers.
    pub certifiers: Vec<Certifier>,
}

impl PolicyRows {
    ghost use Rattle.std.specs.Prelude.{◌≡◌, ◌+◌, [], OnOk};
    ghost use Rattle.bank_policy.specs.PolicyRoom.{AreRowsInOrder, HasPolicyRoom, policy_of};
    ghost use Rattle.bank_policy.specs.PolicyWrites.{policy_written, with_session};

    /// Empty lists.
    pub fn new(alloc: Global) -> PolicyRows
        ensures empty { policy_of result ≡ record { users = []; sets = []; relations = []; triples = []; certifiers = [] } }
        ensures in_order { AreRowsInOrder result }
    {
        PolicyRows {
            users: Vec::new(alloc),
            sets: Vec::new(alloc),
            relations: Vec::new(alloc),
            triples: Vec::new(alloc),
            certifiers: Vec::new(alloc),
        }
    }

    /// Makes room for `count` rows in each list. The rows stay, also where memory is refused.
    pub fn reserve(&mut self, count: usize) -> Result<(), AllocError>
        ensures ok { OnOk result (HasPolicyRoom self.new count) }
        ensures same { policy_of self.new ≡ policy_of self.old }
        ensures in_order { AreRowsInOrder self.old → AreRowsInOrder self.new }
    {
        self.users.reserve(count)?;
        self.sets.reserve(count)?;
        self.relations.reserve(count)?;
        self.triples.reserve(count)?;
        self.certifiers.reserve(count)
    }

    /// Carries out one change, where there is room for one more row, and leaves so much room. It takes
    /// no memory and cannot fail.
    pub fn write(&mut self, change: PolicyWrite, room: usize)
        requires { HasPolicyRoom self.old (room + 1) }
        ensures written { policy_of self.new ≡ policy_written change (policy_of self.old) }
        ensures room { HasPolicyRoom self.new room }
        ensures in_order { AreRowsInOrder self.old → AreRowsInOrder self.new }
    {
        match change {
            PolicyWrite::User(user) => insert_row_reserved(&mut self.users, user),
            PolicyWrite::Set(set) => insert_row_reserved(&mut self.sets, set),
            PolicyWrite::Relation(relation) => insert_row_reserved(&mut self.relations, relation),
            PolicyWrite::NoRelation(key) => {
                remove_rows(&mut self.relations, relation_number(key.procedure, key.set));
                remove_triples(&mut self.triples, key);
            }
            PolicyWrite::Triple(triple) => insert_row_reserved(&mut self.triples, triple),
            PolicyWrite::NoTriple(key) => {
                remove_rows(
                    &mut self.triples,
                    triple_number(key.user, key.procedure, key.set),
                )
            }
            PolicyWrite::Certifier(certifier) => {
                insert_row_reserved(&mut self.certifiers, certifier)
            }
            PolicyWrite::NoCertifier(certifier) => {
                remove_rows(&mut self.certifiers, certifier.key())
            }
            PolicyWrite::Suspended(to) => change_rows(&mut self.users, to.user as u128, &to),
        }
    }

    /// Makes this the latest session of its user. The room stays. It takes no memory.
    pub fn set_session(&mut self, to: Session, room: usize)
        requires { HasPolicyRoom self.old room }
        ensures written { policy_of self.new ≡ record (policy_of self.old) { users = with_session to self.old.users.items } }
        ensures room { HasPolicyRoom self.new room }
        ensures in_order { AreRowsInOrder self.old → AreRowsInOrder self.new }
    {
        change_rows(&mut self.users, to.user as u128, &to);
    }
}

ghost use Rattle.std.specs.Prelude.{◌≡◌, ◌≤◌, not, vec_len, vec_capacity};
ghost use Rattle.std.specs.List.{filter};
ghost use Rattle.std.specs.List.Sorted.{IsNonDecreasingBy};
ghost use Rattle.bank_policy.specs.PolicyKeys.{triple_key};
ghost use Rattle.bank_policy.specs.PolicyWrites.{is_triple_on};

/// Takes the triples of a relation away, whosever they are.
fn remove_triples(rows: &mut Vec<Triple>, of: RelationKey)
    ensures items { rows.new.items ≡ filter (λ row. not (is_triple_on of row)) rows.old.items }
    ensures len { vec_len rows.new ≤ vec_len rows.old }
    ensures capacity { vec_capacity rows.new ≡ vec_capacity rows.old }
    ensures in_order { IsNonDecreasingBy triple_key rows.old.items → IsNonDecreasingBy triple_key rows.new.items }
{
    rows.retain(|row| row.procedure.number() != of.procedure.number() || row.set != of.set);
}
