//! The blocks of a download, before the boot that a done one asks for.

ghost use Rattle.std.specs.Prelude.{◌≡◌, ◌/◌, ◌<◌, ◌≤◌, ◌^◌, Ok, IfOk, IsTrue, OnOk, None, Option, Some, length};
ghost use Rattle.std.specs.Option.{ForSome, option_map};
ghost use Rattle.sector_pool.specs.Keeping.{KeepsOut};
ghost use Rattle.sector_pool.specs.Pool.{HasFree};
ghost use Rattle.part_table.specs.Sound.{IsSoundTable};
ghost use Rattle.slot_choice.specs.Units.{IsSoundFor};
ghost use Rattle.uf2_place.specs.Blocks.{IsUf2};
ghost use Rattle.uf2_place.specs.Downloads.{IsTargetIn, lease_of};
ghost use Rattle.uf2_place.specs.Rulings.{wanted};
ghost use Rattle.boot_machine.specs.Machines.{Host, Placing};
ghost use Rattle.boot_machine.specs.Serving.{block_answer, boot_of_accepted, done_boot, places, table_of_found, wanted_in};
ghost use Rattle.boot_machine.specs.Standing.{Carries, HasRoom, IsDoneIn, IsServedBlock};

use crate::found::table_of_found;
use crate::served::Served;
use crate::watched::Watched;
use boot_rules::{Found, Target, is_executable};
use part_table::Table;
use pico_board::{Board, BootKind, Cpu, FLASH_BASE, PowerLost};
use sector_pool::SectorPool;
use text_lines::{accepted_outcome, refused_outcome};
use uf2_place::{Accepted, Download, PlaceFault, Uf2};

/// The boot that a download into this target asks for once it is done.
fn done_boot(family: u32, target: Target) -> Option<BootKind>
    requires { target.window.start < 2 ^ 24 }
    ensures { result ≡ done_boot family target }
{
    if target.stay {
        return None;
    }
    if is_executable(family) {
        Some(BootKind::Update(FLASH_BASE + target.window.start))
    } else {
        Some(BootKind::Normal)
    }
}

/// The boot that an accepted block asks for.
fn boot_of_accepted(family: u32, accepted: Accepted) -> Option<BootKind>
    requires { IsDoneIn accepted }
    ensures { result ≡ boot_of_accepted family accepted }
{
    match accepted {
        Accepted::Done(target) => done_boot(family, target),
        _ => None,
    }
}

/// What came of a block, and the boot that it asks for.
fn block_answer(block: &Uf2, answer: Result<Accepted, PlaceFault>) -> Result<Served, PowerLost>
    requires { IfOk answer IsDoneIn }
    ensures { result ≡ block_answer block.now.number block.now.family answer }
{
    let fault = match answer {
        Ok(accepted) => {
            return Ok(Served {
                outcome: accepted_outcome(block.number, accepted),
                boot: boot_of_accepted(block.family, accepted),
            });
        }
        Err(fault) => fault,
    };
    match fault {
        PlaceFault::PowerLost => Err(PowerLost),
        PlaceFault::NoTarget | PlaceFault::Outside | PlaceFault::NotPermitted => {
            Ok(Served {
                outcome: refused_outcome(fault),
                boot: None,
            })
        }
    }
}

/// The target of a block's family, where the block begins a download.
fn wanted_target<B: Board>(
    board: &mut Watched<B>,
    pool: &mut SectorPool,
    download: &Download,
    table: Option<&Table>,
    cpu: Cpu,
    block: &Uf2,
) -> Option<Target>
    requires power { IsTrue (B.state board.old).powered }
    requires lease { HasFree pool.old }
    requires sound { IsSoundFor (option_map (λ t. t.now) table)
        (length (B.state board.old).content.flash) }
    ensures exact { result ≡ wanted_in (B.state board.old).content
        (option_map (λ t. t.now) table.entry) cpu
        (wanted (length (B.state board.old).content.flash) download.now.current block.now) }
    ensures placed { ForSome result (IsTargetIn (length (B.state board.old).content.flash)) }
    ensures same { board.new ≡ board.old }
    ensures kept { KeepsOut pool.old pool.new }
{
    match download.wants(board.flash_len(), block) {
        Some(family) => board.target(pool, table, cpu, family),
        None => None,
    }
}

/// Places a block: what came of it, and the boot that a done download asks for.
pub fn place_block<B: Board>(
    board: &mut Watched<B>,
    pool: &mut SectorPool,
    download: &mut Download,
    found: &Option<Found>,
    cpu: Cpu,
    block: &Uf2,
) -> Result<Served, PowerLost>
    requires power { IsTrue (B.state board.old).powered }
    requires block { IsUf2 block.now }
    requires sound { ForSome found.now (λ f. IsSoundTable f.table
        (length (B.state board.old).content.flash / 4096)) }
    requires current { ForSome download.old.current
        (λ c. IsTargetIn (length (B.state board.old).content.flash) c.target) }
    requires room { HasRoom pool.old (lease_of download.old.current) }
    requires carries { (placing : Option Placing) × Carries download.old pool.old placing }
    ensures served { (host : Host) → host.found ≡ found.now
        → Carries download.old pool.old host.placing → IsServedBlock B.state B.history
        (places (B.state board.old).content cpu host block.now) board.old result board.new
        download.new pool.new }
    ensures room { HasRoom pool.new (lease_of download.new.current) }
    ensures target { ForSome download.new.current
        (λ c. IsTargetIn (length (B.state board.new).content.flash) c.target) }
{
    let table = table_of_found(found);
    let target = wanted_target(board, pool, download, table, cpu, block);
    let answer = download.accept(board, pool, table, target, block);
    block_answer(block, answer)
}
