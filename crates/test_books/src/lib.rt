//! Tests alone: the books, the users and the policy of the sample, the check of books with a wrong number or
//! a slip out of its limits, and the reads for reports, which no request asks for so far. The values were
//! worked out by hand. They show what the definitions of sums, of authorization and of reads mean. Nothing
//! here is proved or used by a program.
#![tactic(auto)]

#[cfg(test)]
mod books;
#[cfg(test)]
mod named_entries;
#[cfg(test)]
mod policy_rows;
#[cfg(test)]
mod sample;
#[cfg(test)]
mod slips;
#[cfg(test)]
mod world_reads;
