//! The lines of caveats.

ghost use Rattle.std.specs.Prelude.{◌≡◌, ◌++◌, IfOk, codes, decimal, string_bytes};
ghost use Rattle.std.specs.List.{flat_map};
ghost use Rattle.text_words.specs.Writing.{hex_row, hex_word};
ghost use Rattle.text_lines.specs.Texts.{window_text};
ghost use Rattle.slot_caveats.specs.declared.caveat.Caveat.TheVariants.{FaultyTable, MayStart};
ghost use Rattle.cli_caveats.specs.Texts.{caveat_line, caveat_text, hex_bits};

use boot_caveats::Caveat;
use cli_inputs::table_fault_text;
use image_check::Why;
use part_table::TableFault;
use pico_board::Window;
use std::alloc::{AllocError, Global};
use text_lines::{place_text, why_text};

/// A caveat of a window, by its name.
fn window_text(alloc: Global, name: &str, window: Window) -> Result<String, AllocError>
    ensures { IfOk result (λ t. string_bytes t
        ≡ codes "caveat " ++ (name.now ++ (codes " " ++ window_text window))) }
{
    let window = place_text(alloc, window)?;
    format!(in alloc; "caveat {name} {window}")
}

/// A caveat of a partition, by its name.
fn partition_text(alloc: Global, name: &str, part: u32) -> Result<String, AllocError>
    ensures { IfOk result (λ t. string_bytes t
        ≡ codes "caveat " ++ (name.now ++ (codes " partition=" ++ decimal part))) }
{
    format!(in alloc; "caveat {name} partition={part}")
}

/// A caveat of a block of a window, by its name.
fn block_text(alloc: Global, name: &str, window: Window, at: u32) -> Result<String, AllocError>
    ensures { IfOk result (λ t. string_bytes t ≡ codes "caveat "
        ++ (name.now ++ (codes " " ++ (window_text window ++ (codes " at=" ++ hex_word at))))) }
{
    let window = place_text(alloc, window)?;
    format!(in alloc; "caveat {name} {window} at=0x{at:08x}")
}

/// Two images of one version.
fn tie_text(alloc: Global, window: Window, other: Window) -> Result<String, AllocError>
    ensures { IfOk result (λ t. string_bytes t
        ≡ codes "caveat tie " ++ (window_text window ++ (codes " " ++ window_text other))) }
{
    let window = place_text(alloc, window)?;
    let other = place_text(alloc, other)?;
    format!(in alloc; "caveat tie {window} {other}")
}

/// An image that fails a rule by which the chip may not judge.
fn may_start_text(alloc: Global, window: Window, why: Why) -> Result<String, AllocError>
    ensures { IfOk result (λ t. string_bytes t ≡ caveat_text (MayStart window why)) }
{
    let window = place_text(alloc, window)?;
    let why = why_text(alloc, why)?;
    format!(in alloc; "caveat may-start {window} fault={why}")
}

/// A table of a slot with a fault.
fn faulty_table_text(alloc: Global, slot: u32, fault: TableFault) -> Result<String, AllocError>
    ensures { IfOk result (λ t. string_bytes t ≡ caveat_text (FaultyTable slot fault)) }
{
    let fault = table_fault_text(alloc, fault)?;
    format!(in alloc; "caveat table-fault slot={slot} fault={fault}")
}

/// A caveat, as a text.
pub fn caveat_text(alloc: Global, caveat: Caveat) -> Result<String, AllocError>
    ensures { IfOk result (λ t. string_bytes t ≡ caveat_text caveat) }
{
    match caveat {
        Caveat::SecureBoot => format!(in alloc; "caveat secure-boot"),
        Caveat::RawFlags(row, bits) => {
            format!(in alloc; "caveat raw-flags row=0x{row:03x} bits=0x{bits:06x}")
        }
        Caveat::RawSlotSize(bits) => format!(in alloc; "caveat raw-slot-size bits=0x{bits:06x}"),
        Caveat::ShortFlash(slot, part) => {
            format!(in alloc; "caveat short-flash slot={slot} partition={part}")
        }
        Caveat::ShortSlots(size) => format!(in alloc; "caveat short-flash slot-size=0x{size:08x}"),
        Caveat::TableInImage(window, at) => block_text(alloc, "table-in-image", window, at),
        Caveat::OtherProcessor(window) => window_text(alloc, "other-processor", window),
        Caveat::SlotImage(window) => window_text(alloc, "slot-1-image", window),
        Caveat::Tie(window, other) => tie_text(alloc, window, other),
        Caveat::UpdateOfSlot(base) => {
            format!(in alloc; "caveat update-of-slot base=0x{base:08x}")
        }
        Caveat::UpdateMovesUnit(part) => partition_text(alloc, "update-moves-unit", part),
        Caveat::RollbackRows(window) => window_text(alloc, "rollback-rows", window),
        Caveat::RollbackFull(window) => window_text(alloc, "rollback-full", window),
        Caveat::RollbackGap(row) => format!(in alloc; "caveat rollback-gap row=0x{row:03x}"),
        Caveat::FirstBlock(window) => window_text(alloc, "first-block", window),
        Caveat::ItemOrder(window) => window_text(alloc, "item-order", window),
        Caveat::MayStart(window, why) => may_start_text(alloc, window, why),
        Caveat::OwnedImage(part) => partition_text(alloc, "owned-image", part),
        Caveat::UnreadTargets(bits) => {
            format!(in alloc; "caveat unread-bits unpartitioned=0x{bits:08x}")
        }
        Caveat::UnreadSide(part) => partition_text(alloc, "unread-bits", part),
        Caveat::TableTie => format!(in alloc; "caveat table-tie"),
        Caveat::ImageInSlot(slot) => format!(in alloc; "caveat image-in-slot {slot}"),
        Caveat::SlotEnd(window, at) => block_text(alloc, "slot-end", window, at),
        Caveat::FaultyTable(slot, fault) => faulty_table_text(alloc, slot, fault),
        Caveat::TableOrder(slot) => format!(in alloc; "caveat table-order slot={slot}"),
        Caveat::RawCritical(row, bits) => {
            format!(in alloc; "caveat raw-critical row=0x{row:03x} bits=0x{bits:06x}")
        }
        Caveat::LongDefinition(window, at) => block_text(alloc, "long-definition", window, at),
        Caveat::AbsoluteMap(window) => window_text(alloc, "absolute-map", window),
        Caveat::BareHash(window) => window_text(alloc, "bare-hash", window),
        Caveat::IgnoreFlags(part) => partition_text(alloc, "ignore-flags", part),
        Caveat::NoRead(part) => partition_text(alloc, "no-read", part),
        Caveat::UpdateOfNothing(base) => {
            format!(in alloc; "caveat update-of-nothing base=0x{base:08x}")
        }
    }
}

/// The line of a caveat.
fn caveat_line(alloc: Global, caveat: Caveat) -> Result<String, AllocError>
    ensures { IfOk result (λ t. string_bytes t ≡ caveat_line caveat) }
{
    let text = caveat_text(alloc, caveat)?;
    format!(in alloc; "{text}\n")
}

/// The lines of caveats.
pub(crate) fn caveat_lines(alloc: Global, caveats: &[Caveat]) -> Result<String, AllocError>
    ensures { IfOk result (λ t. string_bytes t ≡ flat_map caveat_line caveats.now) }
{
    let mut text = String::new(alloc);
    for caveat in caveats {
        let line = caveat_line(alloc, *caveat)?;
        text.push_str(&line)?;
    }
    Ok(text)
}
