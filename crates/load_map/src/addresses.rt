//! The addresses of SRAM, into which a load map loads (RP2350 Datasheet, section 2.2, Address
//! map).

/// The first address of SRAM.
pub const SRAM_START: u32 = 0x2000_0000;
/// The address after the last one of SRAM, which has 520 KiB.
pub const SRAM_END: u32 = 0x2008_2000;
