//! Tests alone: banks in files whose disk fails at each call in turn, or whose program dies there. They
//! show what is answered while a bank is made, looked for, carried over, served and asked for reports, what is found
//! afterwards, and that requests with slips may be sent again. Nothing here is proved or used by a program.
#![tactic(auto)]

#[cfg(test)]
mod making;
#[cfg(test)]
mod reporting;
#[cfg(test)]
mod retrying;
#[cfg(test)]
mod serving;
#[cfg(test)]
mod snapshots;
#[cfg(test)]
mod upgrading;
