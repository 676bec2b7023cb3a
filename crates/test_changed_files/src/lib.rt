//! Tests alone: banks in SQL tables of files in memory whose tables were changed by hand. They show which
//! tables are adopted, what such a bank then answers, and which fault is reported of the others, with every
//! file left as it was. Nothing here is proved or used by a program.
#![tactic(auto)]

#[cfg(test)]
mod kept_numbers;
#[cfg(test)]
mod layout;
#[cfg(test)]
mod limits;
#[cfg(test)]
mod policies;
#[cfg(test)]
mod refusals;
#[cfg(test)]
mod sound;
