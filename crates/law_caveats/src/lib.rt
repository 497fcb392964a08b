//! No caveat, no doubt: a decision by another rule is the model's wherever the caveat that names
//! the rule is not listed. `Alternatives` in `specs/` has these rules, beside that of `Chosen`.
#![tactic(auto)]

pub mod examples;
pub mod laws;
