//! The check of a whole policy, which reports its first fault.

ghost use Rattle.policy_check.specs.PolicyVerdict.{IsPolicyVerdict};

use crate::policy_fault::PolicyFault;
use crate::separation::{first_break, first_officer};
use crate::soundness::is_policy_sound;
use bank_policy::Policy;

/// Checks that none of the policy's rows dangles, that no officer holds anything, and that no one may execute what they
/// certify, in this order: the fault is that of the first test that fails, with the least user, and for that user the
/// procedure of the least number. It takes no memory.
pub fn check_policy(policy: &Policy) -> Result<(), PolicyFault>
    ensures { IsPolicyVerdict policy.now result }
{
    if !is_policy_sound(policy) {
        return Err(PolicyFault::Dangling);
    }
    if let Some(user) = first_officer(policy) {
        return Err(PolicyFault::OfficerHolds { user });
    }
    if let Some((user, procedure)) = first_break(policy) {
        return Err(PolicyFault::Separation { user, procedure });
    }
    Ok(())
}
