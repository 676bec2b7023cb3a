//! `check_policy` is Ok exactly where the policy is sound, no officer holds anything, and no one may
//! execute what they certify. A sound policy has no key twice, numbers and counts within their limits, and
//! every row that another names. Otherwise the first fault in this order is reported, with the least user. It
//! takes no memory. That commands keep a policy so is said in `certify`.
#![tactic(auto)]

mod check;
mod policy_fault;
mod references;
mod separation;
mod soundness;

pub use check::check_policy;
pub use policy_fault::PolicyFault;
