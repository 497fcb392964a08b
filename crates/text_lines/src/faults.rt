//! Why an image is not valid, in a line.

ghost use Rattle.std.specs.Prelude.{◌≡◌, ◌+◌, ◌≤◌, ◌++◌, codes, decimal, length};
ghost use Rattle.text_words.specs.Writing.{hex_byte, hex_row, hex_word};
ghost use Rattle.text_lines.specs.Faults.{below_text, entry_fault_text, items_text, loop_text, map_text, why_text};

use arrayvec::ArrayString;
use block_loop::LoopFault;
use image_check::{EntryFault, Why};
use image_def::DefFault;
use load_map::MapFault;
use text_words::{put_byte, put_number, put_row, put_short, put_text, put_word};

/// Appends a fault and the number of the entry that has it.
fn put_numbered(line: &mut ArrayString<320>, fault: &str, number: u32)
    requires room { length line.old.bytes + length fault.now + 10 ≤ 320 }
    ensures bytes { line.new.bytes ≡ line.old.bytes ++ (fault.now ++ decimal number) }
    ensures most { length line.new.bytes ≤ length line.old.bytes + length fault.now + 10 }
{
    put_text(line, fault);
    put_number(line, number);
}

/// Appends that two blocks of a loop overlap.
fn put_overlap(line: &mut ArrayString<320>, first: u32, second: u32)
    requires room { length line.old.bytes + 34 ≤ 320 }
    ensures bytes { line.new.bytes ≡ line.old.bytes
        ++ (codes "loop overlap " ++ (decimal first ++ (codes " " ++ decimal second))) }
    ensures most { length line.new.bytes ≤ length line.old.bytes + 34 }
{
    put_numbered(line, "loop overlap ", first);
    put_numbered(line, " ", second);
}

/// Appends that a link of a loop leads to no block.
fn put_broken(line: &mut ArrayString<320>, at: u32)
    requires room { length line.old.bytes + 25 ≤ 320 }
    ensures bytes { line.new.bytes ≡ line.old.bytes ++ (codes "loop broken at=" ++ hex_word at) }
    ensures most { length line.new.bytes ≤ length line.old.bytes + 25 }
{
    put_text(line, "loop broken at=");
    put_word(line, at);
}

/// Appends the fault of a loop.
fn put_loop(line: &mut ArrayString<320>, fault: LoopFault)
    requires room { length line.old.bytes + 34 ≤ 320 }
    ensures bytes { line.new.bytes ≡ line.old.bytes ++ loop_text fault }
    ensures most { length line.new.bytes ≤ length line.old.bytes + 34 }
{
    match fault {
        LoopFault::NoBlock => put_text(line, "loop no-block"), // never of an image's loop
        LoopFault::Broken(at) => put_broken(line, at),
        LoopFault::TooMany => put_text(line, "loop too-many"),
        LoopFault::Overlap(first, second) => put_overlap(line, first, second),
    }
}

/// Appends a fault and the kind of the item that has it.
fn put_kind(line: &mut ArrayString<320>, fault: &str, kind: u8)
    requires room { length line.old.bytes + length fault.now + 4 ≤ 320 }
    ensures bytes { line.new.bytes ≡ line.old.bytes ++ (fault.now ++ hex_byte kind) }
    ensures len { length line.new.bytes ≡ length line.old.bytes + length fault.now + 4 }
{
    put_text(line, fault);
    put_byte(line, kind);
}

/// Appends a fault and the OTP row that has it.
fn put_row_fault(line: &mut ArrayString<320>, fault: &str, row: u16)
    requires room { length line.old.bytes + length fault.now + 6 ≤ 320 }
    ensures bytes { line.new.bytes ≡ line.old.bytes ++ (fault.now ++ hex_row row) }
    ensures most { length line.new.bytes ≤ length line.old.bytes + length fault.now + 6 }
{
    put_text(line, fault);
    put_row(line, row);
}

/// Appends the fault of an image definition's items.
fn put_items(line: &mut ArrayString<320>, fault: DefFault)
    requires room { length line.old.bytes + 34 ≤ 320 }
    ensures bytes { line.new.bytes ≡ line.old.bytes ++ items_text fault }
    ensures most { length line.new.bytes ≤ length line.old.bytes + 34 }
{
    match fault {
        DefFault::Repeated(kind) => put_kind(line, "item repeated ", kind),
        DefFault::BadItem(kind) => put_kind(line, "item bad ", kind),
        DefFault::BadRow(row) => put_row_fault(line, "row bad ", row),
        DefFault::RepeatedRow(row) => put_row_fault(line, "row repeated ", row),
    }
}

/// Appends the fault of a load map.
fn put_map(line: &mut ArrayString<320>, fault: MapFault)
    requires room { length line.old.bytes + 34 ≤ 320 }
    ensures bytes { line.new.bytes ≡ line.old.bytes ++ map_text fault }
    ensures most { length line.new.bytes ≤ length line.old.bytes + 34 }
{
    match fault {
        MapFault::Storage(entry) => put_numbered(line, "map storage ", entry),
        MapFault::Runtime(entry) => put_numbered(line, "map runtime ", entry),
        MapFault::CoversBlock(entry) => put_numbered(line, "map covers-block ", entry),
    }
}

/// The fault of an image's entry.
fn entry_word(fault: EntryFault) -> &'static str
    ensures word { result.now ≡ entry_fault_text fault }
    ensures most { length result.now ≤ 34 }
{
    match fault {
        EntryFault::Table => "entry table",
        EntryFault::InBlock => "entry in-block",
        EntryFault::Pc => "entry pc",
    }
}

/// Appends a rollback version that is below the count of its rows.
fn put_below(line: &mut ArrayString<320>, version: u16, count: u32)
    requires room { length line.old.bytes + 34 ≤ 320 }
    ensures bytes { line.new.bytes ≡ line.old.bytes ++ below_text version count }
    ensures most { length line.new.bytes ≤ length line.old.bytes + 34 }
{
    put_text(line, "rollback ");
    put_short(line, version);
    put_text(line, " below ");
    put_number(line, count);
}

/// Appends why an image is not valid, which has at most 34 bytes.
pub fn put_why(line: &mut ArrayString<320>, why: Why)
    requires room { length line.old.bytes + 34 ≤ 320 }
    ensures bytes { line.new.bytes ≡ line.old.bytes ++ why_text why }
    ensures most { length line.new.bytes ≤ length line.old.bytes + 34 }
{
    match why {
        Why::NoBlock => put_text(line, "no-block"),
        Why::Loop(fault) => put_loop(line, fault),
        Why::NoDefinition => put_text(line, "no-definition"),
        Why::NotForProcessor => put_text(line, "not-for-processor"),
        Why::Items(fault) => put_items(line, fault),
        Why::Trial => put_text(line, "trial"),
        Why::RollbackRequired => put_text(line, "rollback-required"),
        Why::Below(version, count) => put_below(line, version, count),
        Why::Map(fault) => put_map(line, fault),
        Why::Entry(fault) => put_text(line, entry_word(fault)),
        Why::Digest => put_text(line, "digest"),
        Why::Delta => put_text(line, "delta"),
    }
}
