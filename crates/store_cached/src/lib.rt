//! `Cached` is a store over any other, which keeps and shares the triples of a user for a procedure and the
//! relations of a procedure, 64 entries at most. What it keeps of the policy's present version is what the World
//! has; after `triples_of` or `relations_of` the entry stands first, or memory for it was refused. The version and
//! 16 users at most are kept until a plan may change them. That a read is saved is only tested.
#![tactic(auto)]

mod book_reads;
mod cached;
mod entry;
mod known;
pub mod laws;
mod lending;
mod policy_cache;
mod policy_reads;
mod report_reads;
mod store;

pub use cached::Cached;
pub use policy_cache::MAX_ENTRIES;
