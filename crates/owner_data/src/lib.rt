//! Data partitions that follow the choice of their owner: the partition that a data partition
//! names as its owner, and the data that belongs to an image.
#![tactic(auto)]

pub mod examples;
pub mod laws;
mod owners;

pub use owners::{data_parts, owner_pair};
