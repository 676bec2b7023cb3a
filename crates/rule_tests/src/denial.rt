//! Which of several rules, tested in their order, denies first.

ghost use Rattle.std.specs.Prelude.{◌≡◌};
ghost use Rattle.rule_tests.specs.Denial.{first_denial};

use bank_terms::Rule;

/// The first rule that denies, of rules in their order, each with whether it does; or none. It takes
/// no memory.
pub fn first_denial(tests: &[(Rule, bool)]) -> Option<Rule>
    ensures { result ≡ first_denial tests.now }
{
    for (rule, denies) in tests {
        if *denies {
            return Some(*rule);
        }
    }
    None
}
