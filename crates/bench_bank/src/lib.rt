//! Synthetic banks of a requested size, for the benchmarks. `synthetic_world` makes the books and the policy
//! of a `Size`: its branches, entries of each branch, and triples and slips of one user. No contract says
//! which bank is made: whether its books hold shows only where a program checks it or makes a store of it.
#![tactic(auto)]

mod books;
mod policy;
mod size;
mod slips;

pub use books::synthetic_world;
pub use policy::USER;
pub use size::Size;
