//! The data of a started image.

ghost use Rattle.std.specs.Prelude.{ℕ, ◌≡◌, ◌<◌, ◌≤◌, All, IfSome, length, map, option_map, position};
ghost use Rattle.part_table.specs.Fields.{first_sector, last_sector};
ghost use Rattle.part_table.specs.Sound.{IsSoundTable};
ghost use Rattle.part_table.specs.Windows.{partition_window};
ghost use Rattle.owner_data.specs.Owners.{data_parts};
ghost use Rattle.slot_choice.specs.Units.{IsSoundFor};
ghost use Rattle.boot_rules.specs.Data.{data_of, first_window, has_window, is_second_member, started_part};

use arrayvec::ArrayVec;
use owner_data::data_parts;
use part_table::{Partition, Table};
use pico_board::Window;
use slot_choice::{Choice, Member};

/// The window of the started unit's A.
fn first_window(choice: &Choice) -> Option<Window>
    ensures { result ≡ first_window choice.now choice.now.member }
{
    match choice.member {
        Member::A => Some(choice.image.window),
        Member::B => choice.other,
    }
}

/// Whether the partition is this window.
fn has_window(part: &Partition, window: Window) -> bool
    requires right { first_sector part.now ≤ last_sector part.now }
    ensures { result ≡ has_window window part.now }
{
    part.window().is_same(window)
}

/// The first of the partitions that is this window.
fn part_with(parts: &[Partition], window: Window) -> Option<u32>
    requires few { length parts.now ≤ 15 }
    requires right { All (λ p. first_sector p ≤ last_sector p) parts.now }
    ensures value { result ≡ position (has_window window) parts.now }
    ensures inside { IfSome result (λ i. i < length parts.now) }
{
    for i in 0..parts.len() as u32 {
        if has_window(&parts[i as usize], window) {
            return Some(i);
        }
    }
    None
}

/// The partition that is the started unit's A.
fn started_part(table: &Table, choice: &Choice) -> Option<u32>
    requires sound { (n : ℕ) × IsSoundTable table.now n }
    ensures value { result ≡ started_part table.now choice.now }
    ensures inside { IfSome result (λ i. i < length table.now.parts.items) }
{
    part_with(table.parts.as_slice(), first_window(choice)?)
}

/// Whether B was started.
fn is_second_member(member: Member) -> bool
    ensures { result ≡ is_second_member member }
{
    match member {
        Member::A => false,
        Member::B => true,
    }
}

/// The windows of these partitions.
fn windows_of(table: &Table, parts: &[u32]) -> ArrayVec<Window, 14>
    requires sound { (n : ℕ) × IsSoundTable table.now n }
    requires few { length parts.now ≤ 14 }
    requires inside { All (λ i. i < length table.now.parts.items) parts.now }
    ensures { result.items ≡ map (partition_window table.now) parts.now }
{
    let mut windows = ArrayVec::new();
    for part in parts {
        windows.push(table.window(*part));
    }
    windows
}

/// The data windows of a started image, in table order, of each partition whose owner is the A of
/// the started unit. It is the window of the partition's B where B was started and there is one,
/// and its own otherwise. None without a table.
pub fn data_of(table: Option<&Table>, choice: &Choice) -> ArrayVec<Window, 14>
    requires sound { IfSome (option_map (λ t. t.now) table) (λ t. (n : ℕ) × IsSoundTable t n) }
    ensures { result.items ≡ data_of (option_map (λ t. t.now) table.entry) choice.now }
{
    let Some(table) = table else {
        return ArrayVec::new();
    };
    match started_part(table, choice) {
        Some(owner) => {
            let parts = data_parts(table, owner, is_second_member(choice.member));
            windows_of(table, parts.as_slice())
        }
        None => ArrayVec::new(),
    }
}
