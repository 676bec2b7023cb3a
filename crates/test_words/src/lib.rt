//! Tests alone: the texts of amounts and of faults, writes that stop at any call, failures that are counted,
//! and checks of a policy with one row too many. The values were worked out by hand. They show what the
//! definitions of money and of a sound policy mean, at the ends of their ranges too. Nothing here is proved
//! or used by a program.
#![tactic(auto)]

#[cfg(test)]
mod amounts_and_streams;
#[cfg(test)]
mod policy_checks;
