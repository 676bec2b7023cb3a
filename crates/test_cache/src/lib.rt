//! Tests alone: what a cache reads of the store below it and what it returns. A store that counts its reads
//! shows that the second of two equal questions for a balance reads no triples and no relations of it; that
//! after the rule which denies a request no rows are read, for a repeat two; and what a change of the
//! policy and a session end of what is kept. Nothing here is proved or used by a program.
#![tactic(auto)]

#[cfg(test)]
mod cached_reads;
#[cfg(test)]
mod cached_rows;
#[cfg(test)]
mod counting;
#[cfg(test)]
mod denied_reads;
#[cfg(test)]
mod slip_reads;
