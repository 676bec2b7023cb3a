//! Tests alone: a user who has as many slips as one may have, asked of the sample in lists and in tables, each
//! alone and with a cache in front. The replies were worked out by hand, from the rules and not from what the
//! program answered. Nothing here is proved or used by a program.
#![tactic(auto)]

#[cfg(test)]
mod exchange;
#[cfg(test)]
mod full;
#[cfg(test)]
mod stores;
