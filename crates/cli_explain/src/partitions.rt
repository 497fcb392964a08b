//! The texts of partitions.

ghost use Rattle.std.specs.Prelude.{◌≡◌, ◌<◌, ◌≤◌, ◌++◌, if◌then◌else◌, All, IfOk, OnOk, option_map, string_bytes};
ghost use Rattle.std.specs.List.{flat_map};
ghost use Rattle.part_table.specs.Fields.{first_sector, has_bit, last_sector};
ghost use Rattle.cli_course.specs.Outcomes.{line};
ghost use Rattle.cli_explain.specs.Partitions.{added, families_text, flags_text, id_text, ignored_text, is_plain, link_text, name_byte, name_text, named_families, or_none, partition_lines, partition_text, partition_fields_text, processors_text, right_text, rights_text, with_bit, with_families};

use arrayvec::ArrayVec;
use part_table::Partition;
use pico_board::Cpu;
use std::alloc::{AllocError, Global};
use text_lines::place_text as window_text;
use text_words::yes_or_no;

/// Whether a byte of a name stands as it is.
fn is_plain(byte: u8) -> bool
    ensures { result ≡ is_plain byte }
{
    0x20 <= byte && byte <= 0x7e && byte != 0x22 && byte != 0x5c
}

/// A byte of a name: as it is, or by two hexadecimal digits.
fn push_byte(text: &mut String, alloc: Global, byte: u8) -> Result<(), AllocError>
    ensures { OnOk result (string_bytes text.new ≡ string_bytes text.old ++ name_byte byte) }
{
    if is_plain(byte) {
        return text.push(char::from(byte));
    }
    let escaped = format!(in alloc; "\\x{byte:02x}")?;
    text.push_str(&escaped)
}

/// The bytes of a name.
fn push_name(text: &mut String, alloc: Global, name: &[u8]) -> Result<(), AllocError>
    ensures { OnOk result
        (string_bytes text.new ≡ string_bytes text.old ++ flat_map name_byte name.now) }
{
    for byte in name {
        push_byte(text, alloc, *byte)?;
    }
    Ok(())
}

/// The name of a partition between quotes, or `none`. Each byte that does not stand as it is is
/// written as two digits.
pub fn name_text(alloc: Global, name: Option<&ArrayVec<u8, 127>>) -> Result<String, AllocError>
    ensures { IfOk result (λ t. string_bytes t ≡ name_text (option_map (λ n. n.now) name.entry)) }
{
    let Some(name) = name else {
        return format!(in alloc; "none");
    };
    let mut text = format!(in alloc; "\"")?;
    push_name(&mut text, alloc, name.as_slice())?;
    text.push_str("\"")?;
    Ok(text)
}

/// The id of a partition, or `none`.
pub fn id_text(alloc: Global, id: Option<u64>) -> Result<String, AllocError>
    ensures { IfOk result (λ t. string_bytes t ≡ id_text id) }
{
    match id {
        Some(id) => format!(in alloc; "0x{id:016x}"),
        None => format!(in alloc; "none"),
    }
}

/// A word after those before it.
fn add(text: &mut String, word: &str) -> Result<(), AllocError>
    ensures { OnOk result (string_bytes text.new ≡ added (string_bytes text.old) word.now) }
{
    if !text.is_empty() {
        text.push_str(",")?;
    }
    text.push_str(word)
}

/// A family by its name, where the flag word has its bit, counted from the lowest as 0.
fn add_bit(text: &mut String, flags: u32, bit: u32, name: &str) -> Result<(), AllocError>
    requires { bit < 32 }
    ensures { OnOk result (string_bytes text.new
        ≡ (if has_bit flags bit then added (string_bytes text.old) name.now
        else string_bytes text.old)) }
{
    if has_bit(flags, bit) {
        return add(text, name);
    }
    Ok(())
}

/// Whether a word has this bit, counted from the lowest as 0.
fn has_bit(word: u32, bit: u32) -> bool
    requires { bit < 32 }
    ensures { result ≡ has_bit word bit }
{
    (word >> bit) % 2 == 1
}

/// The families of the bits of a flag word by name, in numeric order.
fn named_families(alloc: Global, flags: u32) -> Result<String, AllocError>
    ensures { IfOk result (λ t. string_bytes t ≡ named_families flags) }
{
    let mut text = String::new(alloc);
    add_bit(&mut text, flags, 14, "rp2040")?;
    add_bit(&mut text, flags, 15, "absolute")?;
    add_bit(&mut text, flags, 16, "data")?;
    add_bit(&mut text, flags, 17, "rp2350-arm-s")?;
    add_bit(&mut text, flags, 18, "rp2350-riscv")?;
    add_bit(&mut text, flags, 19, "rp2350-arm-ns")?;
    Ok(text)
}

/// Further families by number, after words.
fn add_families(text: &mut String, alloc: Global, families: &[u32]) -> Result<(), AllocError>
    ensures { OnOk result
        (string_bytes text.new ≡ with_families (string_bytes text.old) families.now) }
{
    for family in families {
        let word = format!(in alloc; "0x{family:08x}")?;
        add(text, &word)?;
    }
    Ok(())
}

/// Words, or `none` where there are none.
fn or_none(alloc: Global, text: String) -> Result<String, AllocError>
    ensures { IfOk result (λ t. string_bytes t ≡ or_none (string_bytes text)) }
{
    if text.is_empty() {
        return format!(in alloc; "none");
    }
    Ok(text)
}

/// The families of a partition, joined by commas, or `none`. Those of its bits come by name, in
/// numeric order, and then the extra ones by number.
pub fn families_text(alloc: Global, part: &Partition) -> Result<String, AllocError>
    ensures { IfOk result (λ t. string_bytes t ≡ families_text part.now) }
{
    let mut text = named_families(alloc, part.flags)?;
    add_families(&mut text, alloc, part.families.as_slice())?;
    or_none(alloc, text)
}

/// The rights to read and to write.
fn right_text(read: bool, write: bool) -> &'static str
    ensures { result.now ≡ right_text read write }
{
    match (read, write) {
        (true, true) => "rw",
        (true, false) => "r",
        (false, true) => "w",
        (false, false) => "none",
    }
}

/// The rights in a location word.
fn rights_text(alloc: Global, word: u32) -> Result<String, AllocError>
    ensures { IfOk result (λ t. string_bytes t ≡ rights_text word) }
{
    let secure = right_text(has_bit(word, 26), has_bit(word, 27));
    let other = right_text(has_bit(word, 28), has_bit(word, 29));
    let loader = right_text(has_bit(word, 30), has_bit(word, 31));
    format!(in alloc; "secure={secure},nonsecure={other},bootloader={loader}")
}

/// The link of a partition.
fn link_text(alloc: Global, part: &Partition) -> Result<String, AllocError>
    ensures { IfOk result (λ t. string_bytes t ≡ link_text part.now) }
{
    let value = part.link_value();
    if part.link_type() == 1 {
        return format!(in alloc; "a={value}");
    }
    if part.link_type() == 2 {
        return format!(in alloc; "owner={value}");
    }
    format!(in alloc; "none")
}

/// The processors in whose boots a partition is ignored.
fn ignored_text(part: &Partition) -> &'static str
    ensures { result.now ≡ ignored_text part.now }
{
    match (part.is_ignored(Cpu::Arm), part.is_ignored(Cpu::Riscv)) {
        (true, true) => "both",
        (true, false) => "arm",
        (false, true) => "riscv",
        (false, false) => "none",
    }
}

/// A partition's window, name, id and families.
fn partition_fields_text(alloc: Global, part: &Partition) -> Result<String, AllocError>
    requires { first_sector part.now ≤ last_sector part.now }
    ensures { IfOk result (λ t. string_bytes t ≡ partition_fields_text part.now) }
{
    let window = window_text(alloc, part.window())?;
    let name = name_text(alloc, part.name.as_ref())?;
    let id = id_text(alloc, part.id)?;
    let families = families_text(alloc, part)?;
    format!(in alloc; "{window} name={name} id={id} families={families}")
}

/// A partition's rights, its link, which processors ignore it, and whether a boot follows a
/// download into it.
fn flags_text(alloc: Global, part: &Partition) -> Result<String, AllocError>
    ensures { IfOk result (λ t. string_bytes t ≡ flags_text part.now) }
{
    let rights = rights_text(alloc, part.location)?;
    let link = link_text(alloc, part)?;
    let ignored = ignored_text(part);
    let reboot = yes_or_no(!part.is_staying());
    format!(in alloc; "rights={rights} link={link} ignored={ignored} reboot={reboot}")
}

/// The partition of a number.
#[tactic(auto, unfolding(crate::specs::Partitions::partition_text))]
fn partition_text(alloc: Global, number: usize, part: &Partition) -> Result<String, AllocError>
    requires { first_sector part.now ≤ last_sector part.now }
    ensures { IfOk result (λ t. string_bytes t ≡ partition_text number part.now) }
{
    let place = partition_fields_text(alloc, part)?;
    let flags = flags_text(alloc, part)?;
    format!(in alloc; "partition {number} {place} {flags}")
}

/// The line of the partition of a number.
pub fn partition_line(alloc: Global, number: usize, part: &Partition) -> Result<String, AllocError>
    requires { first_sector part.now ≤ last_sector part.now }
    ensures { IfOk result (λ t. string_bytes t ≡ line (partition_text number part.now)) }
{
    let text = partition_text(alloc, number, part)?;
    format!(in alloc; "{text}\n")
}

/// The lines of partitions, in table order.
pub(crate) fn partition_lines(alloc: Global, parts: &[Partition]) -> Result<String, AllocError>
    requires { All (λ p. first_sector p ≤ last_sector p) parts.now }
    ensures { IfOk result (λ t. string_bytes t ≡ partition_lines 0 parts.now) }
{
    let mut text = String::new(alloc);
    for (number, part) in parts.iter().enumerate() {
        let line = partition_line(alloc, number, part)?;
        text.push_str(&line)?;
    }
    Ok(text)
}
