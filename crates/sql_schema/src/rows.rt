//! The rows of the tables, a table a file: each is read here, and nowhere else.
mod accounts;
mod branches;
mod certifiers;
mod day_proofs;
mod entries;
mod lines;
mod members;
mod relations;
mod releases;
mod sets;
mod slip_counts;
mod slips;
mod tellers;
mod triples;
mod users;
