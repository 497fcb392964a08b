//! UF2 files and downloads over a board in memory, with values that were worked out by hand.

ghost use Rattle.std.specs.Prelude.{◌≡◌, ◌<◌, ◌+◌, ◌%◌, ◌≤◌, IfOk, IfSome, IsTrue, None, length};
ghost use Rattle.std.specs.Option.{ForSome};
ghost use Rattle.pico_board.specs.MemBoard.{state_of};
ghost use Rattle.sector_pool.specs.Pool.{HasFree};
ghost use Rattle.uf2_place.specs.Accepting.{DownloadView};
ghost use Rattle.uf2_place.specs.Blocks.{IsUf2};
ghost use Rattle.uf2_place.specs.Downloads.{IsOut, IsTargetIn, lease_of};

use pico_board::{Bench, Board, MemBoard, Window};
use sector_pool::SectorPool;
use std::alloc::Global;
use std::process::Abort;
use std::test::Fail;
use test_fixtures::board_of;
use uf2_place::{Accepted, Download, PlaceFault, Target, Uf2, read_uf2, write_uf2};

/// The family rp2350-arm-s.
const ARM_S: u32 = 0xe48b_ff59;
/// The bytes of the flash.
const FLASH: u32 = 262_144;

/// A powered board of 262,144 bytes 0, whose OTP is 0.
fn board(alloc: Global) -> Result<MemBoard, Fail>
    ensures power { IfOk result (λ made. IsTrue (state_of made).powered) }
    ensures size { IfOk result (λ made. length (state_of made).content.flash ≡ 262144) }
{
    Ok(board_of(alloc, vec![in alloc; 0_u8; 262144]?)?)
}

/// A block of an arm-s file of three blocks.
fn block(number: u32, address: u32, byte: u8) -> Uf2
    requires number { number < 3 }
    requires aligned { address % 256 ≡ 0 }
    ensures { IsUf2 result }
{
    Uf2 {
        flags: 0x2000,
        address,
        number,
        count: 3,
        family: ARM_S,
        page: [byte; 256],
    }
}

/// The slot of sectors 32 to 61.
fn slot() -> Target
    ensures { IsTargetIn 262144 result }
{
    Target {
        window: Window {
            start: 0x20000,
            len: 0x1e000,
        },
        gated: true,
        stay: false,
    }
}

/// A byte of the flash.
fn byte_at(board: &MemBoard, at: u32) -> u8
    requires power { IsTrue (state_of board.now).powered }
    requires range { at + 1 ≤ length (state_of board.now).content.flash }
{
    let mut byte = [0_u8; 1];
    board.read(at, &mut byte);
    byte[0]
}

/// A byte of a flash of 262,144 bytes.
fn flash_byte(rt: &impl Abort, board: &MemBoard, at: u32) -> u8
    requires { at + 1 ≤ 262144 }
{
    assert!(rt; board.powered());
    assert_eq!(rt; board.flash_len(), FLASH);
    byte_at(board, at)
}

/// A board, a pool of one sector and a download.
#[derive(Drop)]
struct Bed {
    board: MemBoard,
    pool: SectorPool,
    download: Download,
}

impl Bed {
    /// A download on this board that has not begun.
    fn make(rt: &impl Abort, alloc: Global, board: MemBoard) -> Result<Bed, Fail>
        ensures fresh { IfOk result (λ bed. bed.download.current ≡ None) }
        ensures free { IfOk result (λ bed. HasFree bed.pool) }
    {
        let pool = SectorPool::make(alloc, 1)?;
        let download = Download::make(alloc)?;
        assert!(rt; pool.free() == 1);
        Ok(Bed {
            board,
            pool,
            download,
        })
    }

    /// Places a block where the board is powered and has 262,144 bytes.
    fn place(&mut self, rt: &impl Abort, block: &Uf2) -> Result<Accepted, PlaceFault>
        requires block { IsUf2 block.now }
        requires current { ForSome self.old.download.current (λ c. IsTargetIn
            (length (state_of self.old.board).content.flash) c.target) }
        requires out { IsOut self.old.pool (lease_of self.old.download.current) }
        requires free { lease_of self.old.download.current ≡ None → HasFree self.old.pool }
        ensures current { ForSome self.new.download.current (λ c. IsTargetIn
            (length (state_of self.new.board).content.flash) c.target) }
        ensures out { IsOut self.new.pool (lease_of self.new.download.current) }
        ensures free { lease_of self.new.download.current ≡ None → HasFree self.new.pool }
    {
        assert!(rt; self.board.powered());
        assert_eq!(rt; self.board.flash_len(), FLASH);
        self.download
            .accept(&mut self.board, &mut self.pool, None, Some(slot()), block)
    }
}

/// The bytes of a block of a file.
fn block_at(file: &[u8], at: usize) -> [u8; 512]
    requires { at + 512 ≤ length file.now }
{
    let mut block = [0; 512];
    block.copy_from_slice(&file[at..at + 512]);
    block
}

#[test]
fn a_file_is_written_and_read(rt: HostRuntime) -> Result<(), Fail> {
    let alloc = rt.alloc();
    let image = vec![in alloc; 7_u8; 384]?;
    let mut out = Vec::new(alloc);
    assert_eq!(rt; write_uf2(alloc, &image, ARM_S, &mut out), Ok(()));
    assert_eq!(rt; out.len(), 1024);
    let second = block_at(&out, 512);
    let mut page = [0xff; 256];
    page[..128].copy_from_slice(&image[..128]);
    let two = Uf2 {
        flags: 0x2000,
        address: 0x1000_0100,
        number: 1,
        count: 2,
        family: ARM_S,
        page,
    };
    assert_eq!(rt; read_uf2(&second), Ok(two));
    Ok(())
}

#[test]
fn a_gated_download_is_cut_in_its_final_programs(rt: HostRuntime) -> Result<(), Fail> {
    let alloc = rt.alloc();
    let mut bed = Bed::make(&rt, alloc, board(alloc)?)?;
    bed.board.arm_cut(4, true, &[0x0f, 0x35]);
    let first = block(2, 0x1000_0200, 0x22);
    assert_eq!(rt; bed.place(&rt, &first), Ok(Accepted::Taken));
    let second = block(1, 0x1000_0100, 0x11);
    assert_eq!(rt; bed.place(&rt, &second), Ok(Accepted::Taken));
    assert_eq!(rt; bed.pool.free(), 0);
    let third = block(0, 0x1000_1000, 0x33);
    assert_eq!(rt; bed.place(&rt, &third), Err(PlaceFault::PowerLost));
    assert!(rt; !bed.download.busy());
    assert_eq!(rt; bed.board.steps(), 4);
    bed.board.power_on();
    assert_eq!(rt; flash_byte(&rt, &bed.board, 0x20000), 0xff);
    assert_eq!(rt; flash_byte(&rt, &bed.board, 0x20100), 0x11);
    assert_eq!(rt; flash_byte(&rt, &bed.board, 0x20200), 0x2f);
    assert_eq!(rt; flash_byte(&rt, &bed.board, 0x21000), 0x33);
    Ok(())
}
