//! A bank in the tables of an older schema version, carried over to those of the newest. `upgrade` reads and
//! judges it as `sql_adopt` does, and then takes all tables away, the last that was made first, and makes them
//! anew with `sql_create`, in one transaction: a crash finds the old tables or the new ones, whole. A bank that
//! is refused stays as it was, and one of the newest schema version is reported as of another version.
#![tactic(auto)]

mod carrying;
mod dropping;
mod upgrading;

pub use upgrading::upgrade;
