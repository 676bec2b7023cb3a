//! Tests of many connections that are served at once, by clients of the machine in the same process, and by streams in memory
//! that are reported round by round: each gets the replies to its own messages, in their order; the requests of all are one
//! list; a message that is cut acts not at all; what begins no message is refused on its connection alone. The loop ends by
//! order. Nothing here is proved.
#![tactic(auto)]

#[cfg(test)]
mod clients;
#[cfg(test)]
mod lines;
#[cfg(test)]
mod many;
#[cfg(test)]
mod scripted;
