//! Tests alone: reports over the sample in lists. They show the texts, as they were worked out by hand; and
//! which fault is returned where the store fails at each read. Nothing here is proved or used by a program.
#![tactic(auto)]

#[cfg(test)]
mod counted_reports;
#[cfg(test)]
mod counter;
#[cfg(test)]
mod deciding;
#[cfg(test)]
mod failing;
#[cfg(test)]
mod failing_reads;
#[cfg(test)]
mod lines;
#[cfg(test)]
mod questions;
#[cfg(test)]
mod texts;
