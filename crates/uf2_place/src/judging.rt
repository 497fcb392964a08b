//! What the rules say of a block before any step.

ghost use Rattle.std.specs.Prelude.{◌≡◌, ◌+◌, ◌-◌, ◌*◌, ◌/◌, ◌<◌, ◌≤◌, ◌^◌};
ghost use Rattle.std.specs.Option.{ForSome, option_map};
ghost use Rattle.part_table.specs.Rights.{allowed_by};
ghost use Rattle.part_table.specs.declared.Right.TheVariants.{BootWrite};
ghost use Rattle.uf2_place.specs.Blocks.{IsUf2};
ghost use Rattle.uf2_place.specs.Downloads.{IsTargetIn};
ghost use Rattle.uf2_place.specs.Rulings.{HasOneRight, aimed, begun, continued, continues, is_of, is_skipped, is_page_within, ruling, ruled};

use crate::answer::{Accepted, PlaceFault, Ruling};
use crate::block::Uf2;
use crate::current::Current;
use crate::marks::Marks;
use crate::pages::sector_in;
use part_table::{ABSOLUTE_FAMILY, Right, Table, Target};
use pico_board::FLASH_BASE;

/// The ruling on a block.
pub fn ruling(
    flash_len: u32,
    table: Option<&Table>,
    given: Option<Target>,
    marks: &Marks,
    current: &Option<Current>,
    block: &Uf2,
) -> Ruling
    requires block { IsUf2 block.now }
    requires table { ForSome table (λ t. HasOneRight t.now) }
    requires given { ForSome given (IsTargetIn flash_len) }
    requires target { ForSome current.now (λ c. IsTargetIn flash_len c.target) }
    ensures { result ≡ ruling flash_len (option_map (λ t. t.now) table.entry) given
        marks.now.numbers current.now block.now }
{
    if is_skipped(flash_len, block) {
        return Ruling::Answered(Ok(Accepted::Skipped));
    }
    match current {
        Some(current) if is_of(current, block) => continued(table, marks, block, current.target),
        _ => begun(table, block, given),
    }
}

/// The ruling on a block that continues a download into a target.
fn continued(table: Option<&Table>, marks: &Marks, block: &Uf2, target: Target) -> Ruling
    requires block { IsUf2 block.now }
    requires table { ForSome table (λ t. HasOneRight t.now) }
    requires near { target.window.start + target.window.len < 2 ^ 32 }
    ensures { result ≡ continued (option_map (λ t. t.now) table.entry) marks.now.numbers block.now
        target }
{
    if marks.has_number(block.number) {
        return Ruling::Answered(Ok(Accepted::Again));
    }
    aimed(table, block, target, Ruling::Continues(target))
}

/// The ruling on a block that begins a download.
fn begun(table: Option<&Table>, block: &Uf2, given: Option<Target>) -> Ruling
    requires table { ForSome table (λ t. HasOneRight t.now) }
    requires near { ForSome given (λ t. t.window.start + t.window.len < 2 ^ 32) }
    ensures { result ≡ begun (option_map (λ t. t.now) table.entry) block.now given }
{
    match given {
        None => Ruling::Answered(Err(PlaceFault::NoTarget)),
        Some(target) => aimed(table, block, target, Ruling::Begins(target)),
    }
}

/// `go`, where the page lies in the target and may be written.
fn aimed(table: Option<&Table>, block: &Uf2, target: Target, go: Ruling) -> Ruling
    requires table { ForSome table (λ t. HasOneRight t.now) }
    requires near { target.window.start + target.window.len < 2 ^ 32 }
    ensures { result ≡ aimed (option_map (λ t. t.now) table.entry) block.now target go }
{
    if !is_page_within(target.window.len, block) {
        return Ruling::Answered(Err(PlaceFault::Outside));
    }
    if !may_write(table, sector_in(target.window, block)) {
        return Ruling::Answered(Err(PlaceFault::NotPermitted));
    }
    go
}

/// Whether the bootloader may write a sector.
fn may_write(table: Option<&Table>, sector: u32) -> bool
    requires { ForSome table (λ t. HasOneRight t.now) }
    ensures { result ≡ allowed_by (option_map (λ t. t.now) table.entry) sector BootWrite }
{
    match table {
        None => true,
        Some(table) => table.allowed(sector, Right::BootWrite),
    }
}

/// Whether a block's page lies in this many bytes from 0x10000000 on.
fn is_page_within(len: u32, block: &Uf2) -> bool
    ensures { result ≡ is_page_within len block.now }
{
    FLASH_BASE <= block.address && u64::from(block.address - FLASH_BASE) + 256 <= u64::from(len)
}

/// Whether a block is skipped in a flash of this length.
pub fn is_skipped(flash_len: u32, block: &Uf2) -> bool
    ensures { result ≡ is_skipped flash_len block.now }
{
    block.flags & 1 == 1
        || block.flags >> 13 & 1 != 1
        || block.family == ABSOLUTE_FAMILY && !is_page_within(flash_len, block)
}

/// Whether a block is of the family and the count of a download.
fn is_of(current: &Current, block: &Uf2) -> bool
    ensures { result ≡ is_of current.now block.now }
{
    current.family == block.family && current.count == block.count
}

/// Whether a block continues the current download.
pub fn continues(current: &Option<Current>, block: &Uf2) -> bool
    ensures { result ≡ continues current.now block.now }
{
    match current {
        None => false,
        Some(current) => is_of(current, block),
    }
}
