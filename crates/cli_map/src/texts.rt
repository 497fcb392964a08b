//! The texts of the windows of a flash.

ghost use Rattle.std.specs.Prelude.{◌≡◌, All, IfOk, map, option_map, string_bytes};
ghost use Rattle.part_table.specs.Partitions.{part_at};
ghost use Rattle.boot_map.specs.declared.places.MapPlace.{MapPlace};
ghost use Rattle.boot_map.specs.WindowRules.{IsListed};
ghost use Rattle.boot_map.specs.Maps.{table_of_map};
ghost use Rattle.boot_map.specs.Windows.{parts_of};
ghost use Rattle.svg_map.specs.Maps.{bar_from};
ghost use Rattle.cli_map.specs.Texts.{mapped_slot, bar_of, bars_of, found_words, image_words, is_free_stretch, member_words, pair_words, part_label, place_words, row_text, slot_words};

use boot_map::{FlashMap, MapPlace, MapRow, Pairing};
use boot_reasons::{SlotFault, taken_table};
use cli_explain::{families_text, name_text, slot_text};
use image_check::{Started, Why};
use part_table::{Partition, Table};
use slot_choice::Member;
use std::alloc::{AllocError, Global};
use svg_map::{MapBar, window_span_text};
use text_lines::{rollback_text, version_text, why_text};

/// An image, or the first rule that it fails.
fn found_words(alloc: Global, image: &Result<Started, Why>) -> Result<String, AllocError>
    ensures { IfOk result (λ t. string_bytes t ≡ found_words image.now) }
{
    match image {
        Ok(image) => {
            let version = version_text(alloc, image.version)?;
            let rollback = rollback_text(alloc, image.rollback)?;
            format!(in alloc; " {version} rollback={rollback}")
        }
        Err(why) => {
            let fault = why_text(alloc, *why)?;
            format!(in alloc; " fault={fault}")
        }
    }
}

/// The image of a window, where its row has one.
fn image_words(alloc: Global, image: &Option<Result<Started, Why>>) -> Result<String, AllocError>
    ensures { IfOk result (λ t. string_bytes t ≡ image_words image.now) }
{
    match image {
        Some(image) => found_words(alloc, image),
        None => Ok(String::new(alloc)),
    }
}

/// A member of a pair.
fn member_words(member: Member) -> &'static str
    ensures { result.now ≡ member_words member }
{
    match member {
        Member::A => "A",
        Member::B => "B",
    }
}

/// The pair of a window, where it is a member of one.
fn pair_words(alloc: Global, pair: Option<Pairing>) -> Result<String, AllocError>
    ensures { IfOk result (λ t. string_bytes t ≡ pair_words pair) }
{
    match pair {
        Some(pair) => {
            let member = member_words(pair.member);
            let other = pair.other;
            format!(in alloc; " pair {member} with {other}")
        }
        None => Ok(String::new(alloc)),
    }
}

/// A slot: what it has or lacks where the flash has a table; otherwise its number alone.
fn slot_words(
    alloc: Global,
    table: Option<&Table>,
    number: u32,
    answer: &Result<Table, SlotFault>,
) -> Result<String, AllocError>
    ensures { IfOk result
        (λ t. string_bytes t ≡ slot_words (option_map (λ t. t.now) table.entry) number answer.now) }
{
    match table {
        Some(_) => slot_text(alloc, number, answer),
        None => format!(in alloc; "slot {number}"),
    }
}

/// A partition: its number, its name and its families.
fn part_label(alloc: Global, number: u32, part: &Partition) -> Result<String, AllocError>
    ensures { IfOk result (λ t. string_bytes t ≡ part_label number part.now) }
{
    let name = name_text(alloc, part.name.as_ref())?;
    let families = families_text(alloc, part)?;
    format!(in alloc; "partition {number} name={name} families={families}")
}

/// What slot 0 or 1 has or lacks.
fn mapped_slot(shown: &FlashMap, number: u32) -> &Result<Table, SlotFault>
    ensures { result.now ≡ mapped_slot shown.now number }
{
    if number == 0 {
        &shown.first
    } else {
        &shown.second
    }
}

/// What the partition of this number of a table is.
fn listed_words(alloc: Global, table: Option<&Table>, number: u32) -> Result<String, AllocError>
    requires { IsListed (option_map (λ t. t.now) table) (MapPlace.Partition number) }
    ensures { IfOk result (λ t. string_bytes t
        ≡ part_label number (part_at (parts_of (option_map (λ t. t.now) table.entry)) number)) }
{
    match table {
        Some(table) => part_label(alloc, number, &table.parts.as_slice()[number as usize]),
        None => unreachable!(),
    }
}

/// What a window is.
fn place_words(alloc: Global, shown: &FlashMap, place: MapPlace) -> Result<String, AllocError>
    requires { IsListed (table_of_map shown.now) place }
    ensures { IfOk result (λ t. string_bytes t ≡ place_words shown.now place) }
{
    let table = taken_table(shown.table, &shown.first, &shown.second);
    match place {
        MapPlace::Slot(number) => slot_words(alloc, table, number, mapped_slot(shown, number)),
        MapPlace::Partition(number) => listed_words(alloc, table, number),
        MapPlace::Whole => format!(in alloc; "whole"),
        MapPlace::Free => format!(in alloc; "free"),
    }
}

/// What is said of a window.
#[tactic(auto, unfolding(crate::specs::Texts::row_text))]
fn row_text(alloc: Global, shown: &FlashMap, row: &MapRow) -> Result<String, AllocError>
    requires { IsListed (table_of_map shown.now) row.now.place }
    ensures { IfOk result (λ t. string_bytes t ≡ row_text shown.now row.now) }
{
    let span = window_span_text(alloc, row.window)?;
    let place = place_words(alloc, shown, row.place)?;
    let image = image_words(alloc, &row.image)?;
    let pair = pair_words(alloc, row.pair)?;
    format!(in alloc; "{span} {place}{image}{pair}")
}

/// Whether a window is a free stretch.
fn is_free_stretch(place: MapPlace) -> bool
    ensures { result ≡ is_free_stretch place }
{
    match place {
        MapPlace::Free => true,
        MapPlace::Slot(_) | MapPlace::Partition(_) | MapPlace::Whole => false,
    }
}

/// What is drawn of a window.
fn bar_of(alloc: Global, shown: &FlashMap, row: &MapRow) -> Result<MapBar, AllocError>
    requires { IsListed (table_of_map shown.now) row.now.place }
    ensures { IfOk result (λ bar. bar_from bar ≡ bar_of shown.now row.now) }
{
    Ok(MapBar {
        window: row.window,
        words: row_text(alloc, shown, row)?,
        free: is_free_stretch(row.place),
        starts: row.starts,
    })
}

/// What is drawn of the windows of a map, in their order.
pub fn bars_of(alloc: Global, shown: &FlashMap) -> Result<Vec<MapBar>, AllocError>
    requires { All (λ row. IsListed (table_of_map shown.now) row.place) shown.now.rows.items }
    ensures { IfOk result (λ bars. map bar_from bars.items ≡ bars_of shown.now) }
{
    let mut bars = Vec::new(alloc);
    for row in shown.rows.as_slice() {
        bars.push(bar_of(alloc, shown, row)?)?;
    }
    Ok(bars)
}
