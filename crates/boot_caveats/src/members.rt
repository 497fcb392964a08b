//! What is to be looked up of the definitions of the members that a boot looks at.

ghost use Rattle.std.specs.Prelude.{◌≡◌, ◌+◌, ◌*◌, ◌<◌, ◌≤◌, ◌++◌, All, Contains, IsTrue, OnOk, length};
ghost use Rattle.std.specs.List.{filter_map};
ghost use Rattle.block_codec.specs.Items.{items_of};
ghost use Rattle.image_def.specs.Guarantees.{IsDefinition};
ghost use Rattle.load_map.specs.Loads.{entry_count};
ghost use Rattle.boot_rules.specs.Picking.{IsInside};
ghost use Rattle.boot_caveats.specs.ImageCaveats.{looked_windows};
ghost use Rattle.boot_caveats.specs.MemberCaveats.{absolute_map, bare_hash, definition_passes, has_bare_hash, has_moving_entry, has_moving_map, is_moving_map, long_definition, member_caveats, moves, window_doubts};
ghost use Rattle.boot_caveats.specs.Reads.{AreLooksInside};
ghost use Rattle.boot_caveats.specs.Doubts.{member_doubt};

use arrayvec::ArrayVec;
use block_codec::{Block, Def, Item};
use boot_reasons::UnitReport;
use image_check::defined_in;
use pico_board::{Board, Cpu, FlashView, View, Window};
use slot_caveats::{Caveat, Sought, add, last_where};
use std::alloc::AllocError;

/// The windows of the members of the units that are looked at, in the order of looking.
fn looked_windows(looks: &[UnitReport]) -> ArrayVec<Window, 30>
    requires few { length looks.now ≤ 15 }
    ensures value { result.items ≡ looked_windows looks.now }
    ensures most { length result.items ≤ 30 }
{
    let mut windows = ArrayVec::new();
    for look in looks {
        windows.push(look.unit.a);
        if let Some(second) = look.unit.b {
            windows.push(second);
        }
    }
    windows
}

/// The last block of a window that would be a definition for the processor if it were shorter.
fn long_definition<B: Board>(board: &B, cpu: Cpu, window: Window) -> Option<Caveat>
    requires power { IsTrue (B.state board.now).powered }
    requires inside { IsInside (length (B.state board.now).content.flash) window }
    ensures { result ≡ long_definition (B.state board.now).content cpu window }
{
    match last_where(&FlashView { board, window }, Sought::LongDefinition(cpu)) {
        Some(block) => Some(Caveat::LongDefinition(window, block.at())),
        None => None,
    }
}

/// Whether the first word of an entry of a LOAD_MAP item, the place of its storage, is neither 0
/// nor its second word, the address at which the image finds it.
fn moves(place: u32, runtime: u32) -> bool
    ensures { result ≡ moves place runtime }
{
    place != 0 && place != runtime
}

/// How many entries a LOAD_MAP item has.
fn entry_count(item: &Item) -> u32
    ensures { result ≡ entry_count item.now }
{
    u32::from(item.high % 128)
}

/// Whether an entry of a LOAD_MAP item is such a one.
fn has_moving_entry(block: &Block, item: &Item) -> bool
    requires of_block { Contains (items_of block.now.items) item.now }
    requires words { item.now.words ≡ 1 + 3 * entry_count item.now }
    ensures { result ≡ has_moving_entry block.now item.now }
{
    for i in 0..entry_count(item) {
        let place = block.item_word(item, 3 * i + 1);
        let runtime = block.item_word(item, 3 * i + 2);
        if moves(place, runtime) {
            return true;
        }
    }
    false
}

/// Whether a LOAD_MAP item is absolute and has such an entry.
fn is_moving_map(block: &Block, item: &Item) -> bool
    requires of_block { Contains (items_of block.now.items) item.now }
    requires words { item.now.words ≡ 1 + 3 * entry_count item.now }
    ensures { result ≡ is_moving_map block.now item.now }
{
    item.high >= 128 && has_moving_entry(block, item)
}

/// Whether a definition's LOAD_MAP is absolute and has such an entry.
#[tactic(auto, using(crate::proofs::MemberLemmas::three_words))]
fn has_moving_map(block: &Block, def: &Def) -> bool
    requires sound { IsDefinition block.now def.now }
    ensures { result ≡ has_moving_map (record { block = block.now; def = def.now }) }
{
    match def.map_item {
        Some(place) => is_moving_map(block, &block.item(place)),
        None => false,
    }
}

/// Whether a definition has a HASH_VALUE and no LOAD_MAP.
fn has_bare_hash(block: &Block, def: &Def) -> bool
    ensures { result ≡ has_bare_hash (record { block = block.now; def = def.now }) }
{
    def.digest.is_some() && def.map_item.is_none()
}

/// A window's definition has an absolute LOAD_MAP with an entry that moves what it stores.
fn absolute_map<B: Board>(board: &B, cpu: Cpu, window: Window) -> Option<Caveat>
    requires power { IsTrue (B.state board.now).powered }
    requires inside { IsInside (length (B.state board.now).content.flash) window }
    ensures { result ≡ absolute_map (B.state board.now).content cpu window }
{
    match defined_in(&FlashView { board, window }, cpu) {
        Ok(image) => {
            if has_moving_map(&image.block, &image.def) {
                Some(Caveat::AbsoluteMap(window))
            } else {
                None
            }
        }
        Err(_) => None,
    }
}

/// A window's definition has a HASH_VALUE and no LOAD_MAP.
fn bare_hash<B: Board>(board: &B, cpu: Cpu, window: Window) -> Option<Caveat>
    requires power { IsTrue (B.state board.now).powered }
    requires inside { IsInside (length (B.state board.now).content.flash) window }
    ensures { result ≡ bare_hash (B.state board.now).content cpu window }
{
    match defined_in(&FlashView { board, window }, cpu) {
        Ok(image) => {
            if has_bare_hash(&image.block, &image.def) {
                Some(Caveat::BareHash(window))
            } else {
                None
            }
        }
        Err(_) => None,
    }
}

/// What is to be looked up of a definition.
#[derive(Clone, Copy)]
pub(crate) enum Doubt {
    /// A block that is too long.
    LongDefinition,
    /// An absolute LOAD_MAP with an entry that moves what it stores.
    AbsoluteMap,
    /// A HASH_VALUE without a LOAD_MAP.
    BareHash,
}

/// What is to be looked up of the definition of a window.
fn member_doubt<B: Board>(board: &B, cpu: Cpu, doubt: Doubt, window: Window) -> Option<Caveat>
    requires power { IsTrue (B.state board.now).powered }
    requires inside { IsInside (length (B.state board.now).content.flash) window }
    ensures { result ≡ member_doubt (B.state board.now).content cpu doubt window }
{
    match doubt {
        Doubt::LongDefinition => long_definition(board, cpu, window),
        Doubt::AbsoluteMap => absolute_map(board, cpu, window),
        Doubt::BareHash => bare_hash(board, cpu, window),
    }
}

/// Adds each of these windows of whose definition this is to be looked up.
fn add_doubts<B: Board>(
    board: &B,
    cpu: Cpu,
    doubt: Doubt,
    windows: &[Window],
    list: &mut Vec<Caveat>,
) -> Result<(), AllocError>
    requires power { IsTrue (B.state board.now).powered }
    requires inside { All (IsInside (length (B.state board.now).content.flash)) windows.now }
    ensures { OnOk result (list.new.items ≡ list.old.items
        ++ filter_map (member_doubt (B.state board.now).content cpu doubt) windows.now) }
{
    for window in windows {
        add(list, member_doubt(board, cpu, doubt, *window))?;
    }
    Ok(())
}

/// Adds what is to be looked up of the definitions of these windows.
fn add_each_doubt<B: Board>(
    board: &B,
    cpu: Cpu,
    windows: &[Window],
    list: &mut Vec<Caveat>,
) -> Result<(), AllocError>
    requires power { IsTrue (B.state board.now).powered }
    requires inside { All (IsInside (length (B.state board.now).content.flash)) windows.now }
    ensures { OnOk result (list.new.items ≡ list.old.items
        ++ window_doubts (B.state board.now).content cpu windows.now) }
{
    add_doubts(board, cpu, Doubt::LongDefinition, windows, list)?;
    add_doubts(board, cpu, Doubt::AbsoluteMap, windows, list)?;
    add_doubts(board, cpu, Doubt::BareHash, windows, list)
}

/// Adds what is to be looked up of the definitions of the members of units that are looked at.
pub(crate) fn add_members<B: Board>(
    board: &B,
    cpu: Cpu,
    looks: &[UnitReport],
    list: &mut Vec<Caveat>,
) -> Result<(), AllocError>
    requires power { IsTrue (B.state board.now).powered }
    requires few { length looks.now ≤ 15 }
    requires inside { AreLooksInside (length (B.state board.now).content.flash) looks.now }
    ensures { OnOk result (list.new.items ≡ list.old.items
        ++ member_caveats (B.state board.now).content cpu looks.now) }
{
    let windows = looked_windows(looks);
    add_each_doubt(board, cpu, windows.as_slice(), list)
}
