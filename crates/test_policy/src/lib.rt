//! Tests alone: the limits that sessions, commands of the policy, releases and new accounts meet, the
//! greatest version of a policy, and releases by rows that the sample never has. The values were worked out
//! by hand, from the rules and not from what the program answered. Nothing here is proved or used by a
//! program.
#![tactic(auto)]

#[cfg(test)]
mod by_rows;
#[cfg(test)]
mod commands;
#[cfg(test)]
mod releases;
#[cfg(test)]
mod sessions;
#[cfg(test)]
mod versions;
#[cfg(test)]
mod who;
