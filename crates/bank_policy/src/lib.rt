//! The rows of the policy of Clark and Wilson: users, sets of items, relations, triples, certifiers.
//! `Policy` keeps each kind in order of its key, and a writer adds one row or changes nothing.
//! `PolicyRows::write` carries out one change in room that was made before, and cannot fail. `covers`,
//! `best_limit` and `is_certified` are exact, and never join several triples. `triples_of`, `relations_of`
//! and `standing` are the rows that an operation is judged by. Soundness is checked in `policy_check`.
#![tactic(auto)]

mod coverage;
mod groups;
mod held_rows;
pub mod laws;
mod policy;
mod policy_keys;
mod policy_rows;
mod policy_write;
mod reading;
mod rows;

pub use bank_terms::{Cdi, Kind, OperationRow, Procedure, Rule};
pub use coverage::{best_limit, covers, is_certified, keep_current};
pub use held_rows::{CertifiedRow, HeldRow};
pub use policy::Policy;
pub use policy_keys::{certifier_number, relation_number, triple_number};
pub use policy_rows::PolicyRows;
pub use policy_write::{PolicyWrite, RelationKey, Session, Suspension, TripleKey};
pub use reading::{relations_of, standing, triples_of, user_row};
pub use rows::{Certifier, ItemSet, Member, Name, Relation, Standing, Triple, User};
