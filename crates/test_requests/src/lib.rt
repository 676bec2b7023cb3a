//! Tests alone: requests that are decided and carried out over a bank at an end of the range of money, in
//! lists, and what is denied for the range; and what makes the sample of its opening. The values were worked
//! out by hand, from the rules and not from what the program answered. Nothing here is proved or used by a
//! program.
#![tactic(auto)]

#[cfg(test)]
mod amounts;
#[cfg(test)]
mod asking;
#[cfg(test)]
mod corrections;
#[cfg(test)]
mod forms;
#[cfg(test)]
mod moves;
#[cfg(test)]
mod opening;
#[cfg(test)]
mod posts;
#[cfg(test)]
mod requests;
#[cfg(test)]
mod transfers;
#[cfg(test)]
mod turnovers;
