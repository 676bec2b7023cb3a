//! Tests alone: rows of a bank's SQL tables in memory that are read, added, set and taken away, banks that
//! are made and asked there, and files that are closed and opened again. They compare the store in tables,
//! read by read, with the store in lists. The values were worked out by hand. Nothing here is proved or
//! used by a program.
#![tactic(auto)]

#[cfg(test)]
mod cells;
#[cfg(test)]
mod compare;
#[cfg(test)]
mod files;
#[cfg(test)]
mod opening;
#[cfg(test)]
mod policy;
#[cfg(test)]
mod store;
#[cfg(test)]
mod tables;
