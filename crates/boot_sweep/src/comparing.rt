//! Whether two decisions are the same.

ghost use Rattle.std.specs.Prelude.{◌≡◌};
ghost use Rattle.boot_sweep.specs.Comparing.{is_same_decision, is_same_started};

use boot_rules::{Decision, Started};

/// Whether the images are the same.
pub fn is_same_started(one: &Started, two: &Started) -> bool
    ensures { result ≡ is_same_started one.now two.now }
{
    one == two
}

/// Whether the decisions are the same.
pub fn is_same_decision(decision: &Decision, other: &Decision) -> bool
    ensures { result ≡ is_same_decision decision.now other.now }
{
    decision == other
}
