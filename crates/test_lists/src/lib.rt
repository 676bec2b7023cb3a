//! Tests alone: opening lists and lists of badges, in files, too. They show the World that the lists of the folder sample/
//! state, which record is named where one is bad, how comma-separated values may be written, and what is printed of
//! a fault. Nothing here is proved or used by a program.
#![tactic(auto)]

#[cfg(test)]
mod bad_records;
#[cfg(test)]
mod badge_files;
#[cfg(test)]
mod badges;
#[cfg(test)]
mod forms;
#[cfg(test)]
mod sample;
#[cfg(test)]
mod sample_lists;
