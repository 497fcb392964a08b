//! What no clause says: that calls succeed on contents that were worked out by hand.

ghost use Rattle.std.specs.Prelude.{◌≤◌, IfOk, IsTrue};
ghost use Rattle.sector_pool.specs.Pool.{free_count};
ghost use Rattle.pico_board.specs.MemBoard.{state_of};

use arrayvec::ArrayString;
use boot_machine::{Machine, State};
use boot_rules::{Decision, Fall};
use boot_script::Event;
use pico_board::{Board, BootKind, Cpu, MemBoard};
use ram_start::Ram;
use sector_pool::SectorPool;
use std::alloc::{AllocError, Global};
use std::test::Fail;
use text_lines::{BlockOutcome, EventOutcome};
use uf2_place::{Accepted, Download};

/// A powered board of a flash of 16 sectors, all erased, and an OTP of zeros.
fn erased_board(alloc: Global) -> Result<MemBoard, Fail>
    ensures power { IfOk result (λ board. IsTrue (state_of board).powered) }
{
    let flash = vec![in alloc; 0xff_u8; 65536]?;
    let rows = vec![in alloc; 0_u32; 4096]?;
    Ok(MemBoard::new(alloc, flash, rows)?)
}

/// A pool of the two sectors that a machine needs.
#[tactic(auto, using(boot_machine::proofs::BeginningLemmas::new_free))]
fn two_sectors(alloc: Global) -> Result<SectorPool, AllocError>
    ensures free { IfOk result (λ pool. 2 ≤ free_count pool) }
{
    SectorPool::make(alloc, 2)
}

/// The 512 bytes of a block of a download of two blocks of the family rp2350-arm-s.
fn block(number: u8) -> [u8; 512] {
    let mut bytes = [0; 512];
    bytes[..8].copy_from_slice(&[0x55, 0x46, 0x32, 0x0a, 0x57, 0x51, 0x5d, 0x9e]);
    bytes[9] = 0x20;
    bytes[13] = number;
    bytes[15] = 0x10;
    bytes[17] = 0x01;
    bytes[20] = number;
    bytes[24] = 2;
    bytes[28..32].copy_from_slice(&[0x59, 0xff, 0x8b, 0xe4]);
    bytes[508..].copy_from_slice(&[0x30, 0x6f, 0xb1, 0x0a]);
    bytes
}

#[test]
fn power_is_lost_in_a_download(rt: HostRuntime) -> Result<(), Fail> {
    let alloc = rt.alloc();
    let mut machine = Machine::new(
        erased_board(alloc)?,
        two_sectors(alloc)?,
        Download::make(alloc)?,
        Ram::make(alloc)?,
        Cpu::Arm,
    );
    let mut line = ArrayString::new();
    machine.step(&Event::PowerOn, &mut line);
    assert_eq!(rt; line.as_str(), "boot bootsel no-image");
    machine.step(&Event::Uf2(&block(0)), &mut line);
    assert_eq!(rt; line.as_str(), "uf2 0 taken");
    machine.step(&Event::Cut(0, false, &[]), &mut line);
    machine.step(&Event::Uf2(&block(1)), &mut line);
    assert_eq!(rt; line.as_str(), "power lost");
    assert!(rt; *machine.state() == State::Off);
    assert!(rt; machine.advance(&Event::Buy) == EventOutcome::Off);
    let fall = EventOutcome::Booted(Decision::Bootsel(Fall::NoImage));
    assert!(rt; machine.advance(&Event::PowerOn) == fall);
    let taken = EventOutcome::Block(BlockOutcome::Accepted(0, Accepted::Taken));
    assert!(rt; machine.advance(&Event::Uf2(&block(0))) == taken);
    Ok(())
}

#[test]
fn a_reset_gives_back_the_lease_of_a_download(rt: HostRuntime) -> Result<(), Fail> {
    let alloc = rt.alloc();
    let mut machine = Machine::bootsel(
        erased_board(alloc)?,
        two_sectors(alloc)?,
        Download::make(alloc)?,
        Ram::make(alloc)?,
        Cpu::Arm,
    );
    let mut line = ArrayString::new();
    let asked = machine.serve(&Event::Uf2(&block(0)), &mut line);
    assert!(rt; asked == None);
    assert_eq!(rt; line.as_str(), "uf2 0 taken");
    for _ in 0..3 {
        machine.step(&Event::Reset(BootKind::Bootsel), &mut line);
        assert_eq!(rt; line.as_str(), "boot bootsel requested");
        machine.step(&Event::Uf2(&block(0)), &mut line);
        assert_eq!(rt; line.as_str(), "uf2 0 taken");
    }
    assert!(rt; machine.board().powered());
    let board = machine.into_board();
    assert_eq!(rt; board.flash_len(), 65536);
    Ok(())
}
