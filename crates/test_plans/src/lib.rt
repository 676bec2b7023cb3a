//! Tests alone: plans of posts, transfers, corrections, drawers, moves of cash and closings of days,
//! without a store. They show the rules of the books over synthetic rows, up to the limits that the sample
//! bank never meets, the order of these rules, and which lines and proofs a plan writes. The values were
//! worked out by hand. Nothing here is proved or used by a program.
#![tactic(auto)]

#[cfg(test)]
mod closings;
#[cfg(test)]
mod corrections;
#[cfg(test)]
mod moves;
#[cfg(test)]
mod plans;
#[cfg(test)]
mod posts;
#[cfg(test)]
mod rows;
#[cfg(test)]
mod transfers;
#[cfg(test)]
mod turnovers;
