//! What a boot and a buy write, and what power that is lost in it leaves. This crate has no code
//! of its own. The laws are on the steps of `trial_buy` and the decision of `boot_rules`, and, of
//! an image that runs, on the runs of `boot_machine`.
#![tactic(auto)]

pub mod examples;
pub mod laws;
