//! The answers of cuts.

use boot_rules::Decision;
use cut_class::Class;

/// What a normal boot makes of a loss of power: its class, and the decision.
#[derive(Debug, Drop)]
pub struct Answer {
    /// The class.
    pub class: Class,
    /// The decision.
    pub decision: Decision,
}
