//! What a World holds of one item, and that an operation depends on the items that it touches, and changes
//! them, alone. `laws` has it for two Worlds that agree for one operation of a user, and for all operations
//! and sessions of that user one after another: their replies are the same, reports with their texts. There
//! is no code but the empty functions that bear the laws.
#![tactic(auto)]

pub mod laws;
