//! Which events make a digest or look the table up, told by the bytes that they read: those that a
//! digest covers, or those of a slot.

ghost use Rattle.std.specs.Prelude.{◌≡◌, ◌<◌, ◌≤◌, IfOk, IsTrue, None};
ghost use Rattle.sector_pool.specs.Pool.{free_count};
ghost use Rattle.boot_script.specs.Events.{IsWritableEvent, event_from};

use crate::counted::Counted;
use boot_machine::{Machine, State};
use boot_script::Event;
use info_reply::kinds::INFO;
use pico_board::{BootKind, Cpu, MemBoard};
use picoboot_cmd::{Cmd, write_cmd};
use ram_start::Ram;
use sector_pool::SectorPool;
use std::alloc::{AllocError, Global};
use std::process::Abort;
use std::test::Fail;
use test_fixtures::{PAIR, SEALED, VECTORS, board_of, flash};
use uf2_place::Download;

/// The flash address of A, 0x10002000.
const A: u32 = 0x1000_2000;

/// The bytes that the digest of the sealed image covers are at least those of its load map.
const COVERED: u64 = 0x128;

/// The bytes of slot 1, which is searched for blocks to its end.
const SLOT: u64 = 4096;

/// A reset to a normal boot.
const RESET: Event<'static> = Event::Reset(BootKind::Normal);

/// A pool of the two sectors that a machine needs.
#[tactic(auto, using(boot_machine::proofs::BeginningLemmas::new_free))]
fn two_sectors(alloc: Global) -> Result<SectorPool, AllocError>
    ensures free { IfOk result (λ pool. 2 ≤ free_count pool) }
{
    SectorPool::make(alloc, 2)
}

/// A machine without power, whose A at 0x2000 and B at 0x20000 hold the same sealed image.
fn sealed_machine(alloc: Global) -> Result<Machine<Counted<MemBoard>>, Fail> {
    let parts = [
        (0, PAIR.as_slice()),
        (0x2000, VECTORS.as_slice()),
        (0x2114, SEALED.as_slice()),
        (0x2_0000, VECTORS.as_slice()),
        (0x2_0114, SEALED.as_slice()),
    ];
    let board = board_of(alloc, flash(alloc, &parts, 262_144)?)?;
    Ok(Machine::new(
        Counted::new(board),
        two_sectors(alloc)?,
        Download::make(alloc)?,
        Ram::make(alloc)?,
        Cpu::Arm,
    ))
}

/// How many bytes an event reads.
fn read_by(machine: &mut Machine<Counted<MemBoard>>, event: &Event<'_>) -> u64
    requires { IsWritableEvent (event_from event.now) }
{
    let before = machine.board().bytes();
    machine.advance(event);
    machine.board().bytes().saturating_sub(before)
}

/// A host writes a page of the flash, in BOOTSEL.
fn write_page(machine: &mut Machine<Counted<MemBoard>>, at: u32)
    requires { at < 0x100_0000 }
{
    let mut args = [0; 16];
    args[..4].copy_from_slice(&(0x1000_0000 + at).to_le_bytes());
    args[5] = 1;
    let cmd = Cmd {
        token: 1,
        id: 5,
        arg_size: 8,
        transfer: 256,
        args,
    };
    machine.advance(&Event::Reset(BootKind::Bootsel));
    machine.advance(&Event::Command(&write_cmd(&cmd), &[0x5a; 256]));
}

/// An info command for the target of the family rp2350-arm-s.
fn ask_target(machine: &mut Machine<Counted<MemBoard>>) -> u64 {
    let cmd = Cmd {
        token: 1,
        id: INFO,
        arg_size: 16,
        transfer: 16,
        args: [2, 0, 0, 0, 0x59, 0xff, 0x8b, 0xe4, 0, 0, 0, 0, 0, 0, 0, 0],
    };
    read_by(machine, &Event::Command(&write_cmd(&cmd), &[]))
}

#[test]
fn a_boot_makes_a_digest_anew_where_its_window_changed(rt: HostRuntime) -> Result<(), Fail> {
    let mut machine = sealed_machine(rt.alloc())?;
    let first = read_by(&mut machine, &Event::PowerOn);
    let again = read_by(&mut machine, &RESET);
    assert!(rt; COVERED <= first.saturating_sub(again));
    assert!(rt; matches!(machine.state(), State::Running(_)));
    for _ in 0..5 {
        assert_eq!(rt; read_by(&mut machine, &RESET), again);
    }
    write_page(&mut machine, 0x3000);
    assert!(rt; COVERED <= read_by(&mut machine, &RESET).saturating_sub(again));
    write_page(&mut machine, 0x2_1000);
    assert_eq!(rt; read_by(&mut machine, &RESET), again);
    Ok(())
}

#[test]
fn a_start_remembers_the_digest_of_the_other_member(rt: HostRuntime) -> Result<(), Fail> {
    let mut machine = sealed_machine(rt.alloc())?;
    let update = Event::Reset(BootKind::Update(A));
    let _on = read_by(&mut machine, &Event::PowerOn);
    let first = read_by(&mut machine, &update);
    let again = read_by(&mut machine, &update);
    assert!(rt; COVERED <= first.saturating_sub(again));
    for _ in 0..5 {
        assert_eq!(rt; read_by(&mut machine, &update), again);
    }
    write_page(&mut machine, 0x2_1000);
    assert!(rt; COVERED <= read_by(&mut machine, &update).saturating_sub(again));
    Ok(())
}

#[test]
fn the_target_of_a_download_remembers_a_digest(rt: HostRuntime) -> Result<(), Fail> {
    let mut machine = sealed_machine(rt.alloc())?;
    let _on = read_by(&mut machine, &Event::PowerOn);
    write_page(&mut machine, 0x3000);
    let first = ask_target(&mut machine);
    let again = ask_target(&mut machine);
    assert!(rt; COVERED <= first.saturating_sub(again));
    assert_eq!(rt; ask_target(&mut machine), again);
    write_page(&mut machine, 0x3000);
    assert!(rt; COVERED <= ask_target(&mut machine).saturating_sub(again));
    Ok(())
}

/// The slots of the table are the first two sectors. The table stands in slot 0.
#[test]
fn a_boot_looks_the_table_up_anew_where_a_slot_changed(rt: HostRuntime) -> Result<(), Fail> {
    let mut machine = sealed_machine(rt.alloc())?;
    let _on = read_by(&mut machine, &Event::PowerOn);
    let again = read_by(&mut machine, &RESET);
    write_page(&mut machine, 0x1f00);
    assert!(rt; SLOT <= read_by(&mut machine, &RESET).saturating_sub(again));
    assert_eq!(rt; read_by(&mut machine, &RESET), again);
    write_page(&mut machine, 0x3_e000);
    assert_eq!(rt; read_by(&mut machine, &RESET), again);
    Ok(())
}
