//! Whether two caveats are the same.

ghost use Rattle.std.specs.Prelude.{◌≡◌, ◌↔◌, true};
ghost use Rattle.slot_caveats.specs.Same.{caveat_code, def_told, entry_told, is_same_caveat, is_same_code, is_same_told, loop_told, map_told, numbers, of_numbers, of_table, of_window, table_told, why_told};

use crate::caveat::Caveat;
use block_loop::LoopFault;
use image_check::{EntryFault, Why};
use image_def::DefFault;
use load_map::MapFault;
use part_table::TableFault;
use pico_board::Window;

/// What a fault tells: its number among its kind, and what it says, or 0.
#[derive(Clone, Copy)]
pub(crate) struct Told {
    pub one: u32,
    pub two: u32,
    pub three: u32,
    pub four: u32,
}

/// What a caveat tells: the number of its variant, two numbers or a window, and more, or 0.
#[derive(Clone, Copy)]
pub(crate) struct CaveatCode {
    pub variant: u32,
    pub first: u32,
    pub second: u32,
    pub told: Told,
}

/// Four numbers that are told.
fn numbers(one: u32, two: u32, three: u32, four: u32) -> Told
    ensures { result ≡ numbers one two three four }
{
    Told {
        one,
        two,
        three,
        four,
    }
}

/// What a fault of a loop tells.
fn loop_told(fault: LoopFault) -> Told
    ensures { result ≡ loop_told fault }
{
    match fault {
        LoopFault::NoBlock => numbers(1, 0, 0, 0),
        LoopFault::Broken(at) => numbers(1, 1, at, 0),
        LoopFault::TooMany => numbers(1, 2, 0, 0),
        LoopFault::Overlap(one, two) => numbers(1, 3, one, two),
    }
}

/// What a fault of a definition's items tells.
fn def_told(fault: DefFault) -> Told
    ensures { result ≡ def_told fault }
{
    match fault {
        DefFault::Repeated(kind) => numbers(4, 0, u32::from(kind), 0),
        DefFault::BadItem(kind) => numbers(4, 1, u32::from(kind), 0),
        DefFault::BadRow(row) => numbers(4, 2, u32::from(row), 0),
        DefFault::RepeatedRow(row) => numbers(4, 3, u32::from(row), 0),
    }
}

/// What a fault of a load map tells.
fn map_told(fault: MapFault) -> Told
    ensures { result ≡ map_told fault }
{
    match fault {
        MapFault::Storage(i) => numbers(8, 0, i, 0),
        MapFault::Runtime(i) => numbers(8, 1, i, 0),
        MapFault::CoversBlock(i) => numbers(8, 2, i, 0),
    }
}

/// What a fault of an entry tells.
fn entry_told(fault: EntryFault) -> Told
    ensures { result ≡ entry_told fault }
{
    match fault {
        EntryFault::Table => numbers(9, 0, 0, 0),
        EntryFault::InBlock => numbers(9, 1, 0, 0),
        EntryFault::Pc => numbers(9, 2, 0, 0),
    }
}

/// What the answer of a rule that an image fails tells.
fn why_told(why: Why) -> Told
    ensures { result ≡ why_told why }
{
    match why {
        Why::NoBlock => numbers(0, 0, 0, 0),
        Why::Loop(fault) => loop_told(fault),
        Why::NoDefinition => numbers(2, 0, 0, 0),
        Why::NotForProcessor => numbers(3, 0, 0, 0),
        Why::Items(fault) => def_told(fault),
        Why::Trial => numbers(5, 0, 0, 0),
        Why::RollbackRequired => numbers(6, 0, 0, 0),
        Why::Below(version, count) => numbers(7, u32::from(version), count, 0),
        Why::Map(fault) => map_told(fault),
        Why::Entry(fault) => entry_told(fault),
        Why::Digest => numbers(10, 0, 0, 0),
        Why::Delta => numbers(11, 0, 0, 0),
    }
}

/// What a fault of a table tells.
fn table_told(fault: TableFault) -> Told
    ensures { result ≡ table_told fault }
{
    match fault {
        TableFault::BadItem => numbers(0, 0, 0, 0),
        TableFault::Permissions(i) => numbers(1, i, 0, 0),
        TableFault::Range(i) => numbers(2, i, 0, 0),
        TableFault::Overlap(i, k) => numbers(3, i, k, 0),
        TableFault::Link(i) => numbers(4, i, 0, 0),
        TableFault::Hash => numbers(5, 0, 0, 0),
    }
}

/// The code of a caveat that tells two numbers, or 0.
fn of_numbers(variant: u32, first: u32, second: u32) -> CaveatCode
    ensures { result ≡ of_numbers variant first second }
{
    CaveatCode {
        variant,
        first,
        second,
        told: numbers(0, 0, 0, 0),
    }
}

/// The code of a caveat that tells a window, and more.
fn of_window(variant: u32, window: Window, told: Told) -> CaveatCode
    ensures { result ≡ of_window variant window told }
{
    CaveatCode {
        variant,
        first: window.start,
        second: window.len,
        told,
    }
}

/// The code of a caveat that tells a slot and a fault of its table.
fn of_table(variant: u32, slot: u32, told: Told) -> CaveatCode
    ensures { result ≡ of_table variant slot told }
{
    CaveatCode {
        variant,
        first: slot,
        second: 0,
        told,
    }
}

/// The code of a caveat.
fn caveat_code(caveat: &Caveat) -> CaveatCode
    ensures { result ≡ caveat_code caveat.now }
{
    let none = numbers(0, 0, 0, 0);
    match *caveat {
        Caveat::SecureBoot => of_numbers(0, 0, 0),
        Caveat::RawFlags(row, bits) => of_numbers(1, u32::from(row), bits),
        Caveat::RawSlotSize(bits) => of_numbers(2, bits, 0),
        Caveat::ShortFlash(slot, part) => of_numbers(3, slot, part),
        Caveat::ShortSlots(size) => of_numbers(4, size, 0),
        Caveat::TableInImage(window, at) => of_window(5, window, numbers(at, 0, 0, 0)),
        Caveat::OtherProcessor(window) => of_window(6, window, none),
        Caveat::SlotImage(window) => of_window(7, window, none),
        Caveat::Tie(window, other) => of_window(8, window, numbers(other.start, other.len, 0, 0)),
        Caveat::UpdateOfSlot(slot) => of_numbers(9, slot, 0),
        Caveat::UpdateMovesUnit(part) => of_numbers(10, part, 0),
        Caveat::RollbackRows(window) => of_window(11, window, none),
        Caveat::RollbackFull(window) => of_window(12, window, none),
        Caveat::RollbackGap(row) => of_numbers(13, u32::from(row), 0),
        Caveat::FirstBlock(window) => of_window(14, window, none),
        Caveat::ItemOrder(window) => of_window(15, window, none),
        Caveat::MayStart(window, why) => of_window(16, window, why_told(why)),
        Caveat::OwnedImage(part) => of_numbers(17, part, 0),
        Caveat::UnreadTargets(bits) => of_numbers(18, bits, 0),
        Caveat::UnreadSide(part) => of_numbers(19, part, 0),
        Caveat::TableTie => of_numbers(20, 0, 0),
        Caveat::ImageInSlot(slot) => of_numbers(21, slot, 0),
        Caveat::SlotEnd(window, at) => of_window(22, window, numbers(at, 0, 0, 0)),
        Caveat::FaultyTable(slot, fault) => of_table(23, slot, table_told(fault)),
        Caveat::TableOrder(slot) => of_numbers(24, slot, 0),
        Caveat::RawCritical(row, bits) => of_numbers(25, u32::from(row), bits),
        Caveat::LongDefinition(window, at) => of_window(26, window, numbers(at, 0, 0, 0)),
        Caveat::AbsoluteMap(window) => of_window(27, window, none),
        Caveat::BareHash(window) => of_window(28, window, none),
        Caveat::IgnoreFlags(part) => of_numbers(29, part, 0),
        Caveat::NoRead(part) => of_numbers(30, part, 0),
        Caveat::UpdateOfNothing(base) => of_numbers(31, base, 0),
    }
}

/// Whether what is told is the same.
fn is_same_told(one: Told, other: Told) -> bool
    ensures { result ≡ is_same_told one other }
{
    one.one == other.one
        && one.two == other.two
        && one.three == other.three
        && one.four == other.four
}

/// Whether the codes are the same.
fn is_same_code(one: CaveatCode, other: CaveatCode) -> bool
    ensures { result ≡ is_same_code one other }
{
    one.variant == other.variant
        && one.first == other.first
        && one.second == other.second
        && is_same_told(one.told, other.told)
}

/// Whether two caveats are the same: of one variant, which tells the same.
pub fn is_same_caveat(one: &Caveat, other: &Caveat) -> bool
    ensures exact { result ≡ is_same_caveat one.now other.now }
    ensures same { (result ≡ true) ↔ (one.now ≡ other.now) }
{
    is_same_code(caveat_code(one), caveat_code(other))
}
