//! What holds of every plan. The functions do nothing; their contracts are the laws.

ghost use Rattle.bank_books.specs.Laws.{PlanGrows, VersionStays};

/// A plan with one more change, which is none of the policy, makes of a World what that change makes of
/// what the plan makes of it, where the version of its policy has room for the plan.
pub fn plan_grows()
    ensures { PlanGrows }
{}

/// Every plan leaves the version of the policy in its limits: one for which it has no room changes nothing.
pub fn version_stays()
    ensures { VersionStays }
{}
