//! Tests alone: a day at the sample's counter, one message of each operation, of each command, of a session and
//! of what is refused, and messages that end a connection. They come in two pieces, cut at each byte, and break
//! off at each; their reads and writes fail at each call. What came whole is answered as each message alone, and
//! what did not did nothing. rows/ says what the replies are. No program uses this, and no proof.
#![tactic(auto)]

#[cfg(test)]
mod cuts;
#[cfg(test)]
mod day;
#[cfg(test)]
mod runs;
