//! The keys by which the lists of the policy are ordered.

ghost use Rattle.std.specs.Prelude.{◌≡◌};
ghost use Rattle.bank_policy.specs.PolicyKeys.{certifier_number, relation_number, triple_number};

use crate::rows::{Certifier, ItemSet, Relation, Triple, User};
use bank_terms::Procedure;
use keyed_rows::Keyed;

/// The key of a relation: by procedure, then set.
pub fn relation_number(procedure: Procedure, set: u32) -> u128
    ensures { result ≡ relation_number procedure set }
{
    procedure.number() as u128 * (1 << 32) + set as u128
}

/// The key of a triple: by user, then procedure, then set.
pub fn triple_number(user: u32, procedure: Procedure, set: u32) -> u128
    ensures { result ≡ triple_number user procedure set }
{
    user as u128 * (1 << 64) + relation_number(procedure, set)
}

/// The key of a certifier: by user, then procedure.
pub fn certifier_number(user: u32, procedure: Procedure) -> u128
    ensures { result ≡ certifier_number user procedure }
{
    user as u128 * (1 << 32) + procedure.number() as u128
}

impl Keyed for User {
    ghost use Rattle.bank_policy.specs.PolicyKeys.{user_key};

    ghost key = { user_key };

    fn key(&self) -> u128 {
        self.user as u128
    }
}

impl Keyed for ItemSet {
    ghost use Rattle.bank_policy.specs.PolicyKeys.{set_key};

    ghost key = { set_key };

    fn key(&self) -> u128 {
        self.set() as u128
    }
}

impl Keyed for Relation {
    ghost use Rattle.bank_policy.specs.PolicyKeys.{relation_key};

    ghost key = { relation_key };

    fn key(&self) -> u128 {
        relation_number(self.procedure, self.set)
    }
}

impl Keyed for Triple {
    ghost use Rattle.bank_policy.specs.PolicyKeys.{triple_key};

    ghost key = { triple_key };

    fn key(&self) -> u128 {
        triple_number(self.user, self.procedure, self.set)
    }
}

impl Keyed for Certifier {
    ghost use Rattle.bank_policy.specs.PolicyKeys.{certifier_key};

    ghost key = { certifier_key };

    fn key(&self) -> u128 {
        certifier_number(self.user, self.procedure)
    }
}
