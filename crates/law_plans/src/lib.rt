//! What a plan leaves of an image, and that a sealed image is firm: laws above the sweep, the
//! image tool and the plans.
//!
//! A plan's session is that of `boot_session`. `specs/Written` says which bytes a plan leaves, and
//! by which steps. `specs/Lone` says when an image's first sector has no block but those of its
//! loop.
#![tactic(auto)]

pub mod examples;
pub mod laws;
