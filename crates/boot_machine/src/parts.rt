//! The parts of a machine.

use crate::state::{Membership, State};
use crate::watched::Watched;
use boot_rules::Found;
use pico_board::{Board, Cpu};
use ram_start::Ram;
use sector_pool::SectorPool;
use uf2_place::Download;

/// The parts of a machine.
#[derive(Drop)]
pub struct Parts<B: Board> {
    /// The board, with what is remembered of the digests of its windows.
    pub board: Watched<B>,
    /// The sectors that calls borrow.
    pub pool: SectorPool,
    /// The place of downloads.
    pub download: Download,
    /// The SRAM as a host writes it.
    pub ram: Ram,
    /// The processor that boots.
    pub cpu: Cpu,
    /// What the machine is doing.
    pub state: State,
    /// Where the running image stands, where it was started from flash.
    pub membership: Option<Membership>,
    /// The partition table that was found when BOOTSEL was entered.
    pub found: Option<Found>,
}
