//! Tests of blocks and load maps, and of whether two windows hold the same image. Others are of the
//! calls that make images and binaries. With ample memory they answer what was worked out by hand.
//! The digests are those of files that were made outside this program.
#![tactic(auto)]

#[cfg(test)]
mod blocks;
#[cfg(test)]
mod checks;
#[cfg(test)]
mod elves;
#[cfg(test)]
mod fixtures;
#[cfg(test)]
mod making;
#[cfg(test)]
mod maps;
