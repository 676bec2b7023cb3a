//! What one change of each kind keeps of the books, and what it moves. The module `laws` says it of an
//! entry, a cash line, an account, the proof of a day, a release that is given or used, and a session; and
//! what a plan of entries and lines moves. The limits are judged once, of the whole operation. All are
//! statements over definitions: there is no code here, and no law on changes of the policy.
#![tactic(auto)]

pub mod laws;
