//! Moments, and the clocks that give them to messages. `Moment::new` is the moment at these seconds, from 0
//! to 99,999,999,999, and none exactly past that; `Moment::cut` is the last one there; `seconds` gives
//! them back. `Fixed` is a clock that stands still: it gives each message the same moment. `MachineClock`
//! gives what the machine's clock reads. What a clock has to promise is the trait `Clock`.
#![tactic(auto)]

mod clock;
mod fixed;
mod machine;
mod moment;
mod shows;

pub use clock::Clock;
pub use fixed::Fixed;
pub use machine::MachineClock;
pub use moment::Moment;
pub use shows::Shows;
