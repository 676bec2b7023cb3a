//! Questions that list the policy: all of its lines, or the line that follows another.

ghost use Rattle.std.specs.Prelude.{◌≡◌};
ghost use Rattle.world_reads.specs.PolicyListing.{next_policy, policy_rows};

use crate::lists::policy_rows;
use crate::next::next_policy;
use money::Fault;
use sql_schema::Question;
use sqlite::{Alter, Transaction};
use std::alloc::Global;
use world_reads::{PolicyKey, PolicyRow};

/// All lines of the policy, in listing order.
#[derive(Clone, Copy)]
pub struct PolicyRows;

impl Question for PolicyRows {
    type Answer = Vec<PolicyRow>;

    ghost says = { λ asked w rows. rows.items ≡ policy_rows w };

    fn ask<S: Alter>(
        &self,
        alloc: Global,
        tx: &mut Transaction<'_, S>,
    ) -> Result<Vec<PolicyRow>, Fault> {
        policy_rows(alloc, tx)
    }
}

/// The first line of the policy that is listed after a key, or the first of all where no key is given;
/// none where no line is listed there.
#[derive(Clone, Copy)]
pub struct NextPolicy {
    /// The key of the line before it.
    pub after: Option<PolicyKey>,
}

impl Question for NextPolicy {
    type Answer = Option<PolicyRow>;

    ghost says = { λ asked w row. row ≡ next_policy w asked.after };

    fn ask<S: Alter>(
        &self,
        alloc: Global,
        tx: &mut Transaction<'_, S>,
    ) -> Result<Option<PolicyRow>, Fault> {
        next_policy(alloc, tx, self.after)
    }
}
