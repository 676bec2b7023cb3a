//! Users, sets, members, relations, triples and certifiers in SQL tables, inside a transaction. Reads such
//! as `user_of`, `triples_of` and `relations_of` return exactly the rows of their key, as `sql_schema` reads
//! them. Writes such as `add_triple`, `set_user` and `remove_relation` leave exactly the rows that they say,
//! and all others; a relation takes its triples with it. Nothing is committed. That a call goes through, and
//! which fault it gives, is not said.
#![tactic(auto)]

mod certifiers;
mod held;
mod members;
mod relations;
mod sets;
mod triples;
mod users;

pub use certifiers::{add_certifier, is_certifier, remove_certifier};
pub use held::{relations_of, triples_of};
pub use members::{add_member, members_of};
pub use relations::{add_relation, relation_of, relations_in, remove_relation};
pub use sets::{add_set, is_set, set_count};
pub use triples::{add_triple, remove_triple, triple_count, triple_of, triples_in};
pub use users::{add_user, set_user, user_of};
