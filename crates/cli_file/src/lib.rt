//! What each action of the bank program over a file stands on. An `Opener` opens one: `Machine` those of the
//! machine, over every start, which is what the file and its log held. `find` looks for a bank in an open file,
//! and `close` hands the file back; `check_in` and `check_file` change nothing. `read_badge_list` reads one of `Lists`,
//! whose users `BadgeGate` knows. `ActionFault` has the line of each fault, which `say_done` and `end` report.
#![tactic(auto)]

mod badges;
mod beginning;
mod checking;
mod fault;
mod file;
mod gate;
pub mod laws;
mod left;
mod lists;
mod opening;
mod page;
mod progress;
mod reporting;
mod texts;

pub use badges::read_badge_list;
pub use checking::{check_file, check_in};
pub use fault::ActionFault;
pub use file::{BankFile, FileConnection, close, find};
pub use gate::BadgeGate;
pub use left::{FileLeft, PathLeft};
pub use lists::{Lists, MachineLists};
pub use opening::{Machine, Opener, open_existing};
pub use progress::Progress;
pub use reporting::{REFUSED, end, say_done};
