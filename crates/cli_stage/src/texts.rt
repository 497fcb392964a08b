//! The texts of `stage`.

ghost use Rattle.std.specs.Prelude.{◌≡◌, ◌++◌, IfOk, codes, option_map, string_bytes};
ghost use Rattle.text_lines.specs.Faults.{why_text};
ghost use Rattle.cli_stage.specs.Images.{elf_front, file_fault, has_front, uf2_front};
ghost use Rattle.cli_stage.specs.StageWorks.{order_word, stage_line};

use image_check::Why;
use pico_board::Window;
use std::alloc::{AllocError, Global};
use text_lines::{place_text, why_text};

/// The bytes of the word that a UF2 block begins with.
const UF2_FRONT: [u8; 4] = [0x55, 0x46, 0x32, 0x0a];

/// The bytes that an ELF file begins with.
const ELF_FRONT: [u8; 4] = [0x7f, b'E', b'L', b'F'];

/// Whether the file begins as a UF2 file does.
fn is_uf2_file(image: &[u8]) -> bool
    ensures { result ≡ has_front uf2_front image.now }
{
    image.len() >= 4 && &image[..4] == UF2_FRONT.as_slice()
}

/// Whether the file begins as an ELF file does.
fn is_elf_file(image: &[u8]) -> bool
    ensures { result ≡ has_front elf_front image.now }
{
    image.len() >= 4 && &image[..4] == ELF_FRONT.as_slice()
}

/// The form of a file that is no image, by its first bytes.
pub(crate) fn file_fault(image: &[u8]) -> Option<&'static str>
    ensures { option_map (λ t. t.now) result ≡ file_fault image.now }
{
    if is_uf2_file(image) {
        Some("uf2-file")
    } else if is_elf_file(image) {
        Some("elf-file")
    } else {
        None
    }
}

/// The rule that an image fails.
pub(crate) fn unbootable_text(alloc: Global, why: Why) -> Result<String, AllocError>
    ensures { IfOk result (λ t. string_bytes t ≡ codes "not-bootable " ++ why_text why) }
{
    let why = why_text(alloc, why)?;
    format!(in alloc; "not-bootable {why}")
}

/// The word of the order.
fn order_word(is_staged: bool) -> &'static str
    ensures { result.now ≡ order_word is_staged }
{
    if is_staged { "staged" } else { "gated" }
}

/// The line of a script for an image of so many bytes.
pub(crate) fn stage_line(
    alloc: Global,
    window: Window,
    length: usize,
    is_staged: bool,
) -> Result<String, AllocError>
    ensures { IfOk result (λ t. string_bytes t ≡ stage_line window length is_staged) }
{
    let place = place_text(alloc, window)?;
    let order = order_word(is_staged);
    format!(in alloc; "stage {place} bytes={length} order={order}\n")
}
