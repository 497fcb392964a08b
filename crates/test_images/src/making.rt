//! The calls with ample memory. The digests are those of files that were made outside this program.

ghost use Rattle.std.specs.Prelude.{◌≡◌, ◌≤◌, IfOk, length};
ghost use Rattle.script_plan.specs.Plans.{IsPlanned};

use crate::fixtures::{BLOCK, LEAST_SEALED, sha256, spec};
use image_pack::{generate, seal};
use pico_board::Window;
use script_plan::plan;
use std::alloc::{AllocError, Global};
use std::process::Abort;
use std::test::Fail;

/// The script that writes it into the window of sectors 2 to 31.
const PLANNED: [u8; 32] = [
    0x88, 0x69, 0x1f, 0x87, 0x86, 0xfe, 0x57, 0xd0, 0x85, 0x7d, 0xf1, 0x59, 0x5f, 0x5f, 0x94, 0x82,
    0xbb, 0x70, 0x0f, 0x7e, 0x43, 0x5a, 0x53, 0x9e, 0x82, 0x89, 0xaf, 0xc2, 0xc9, 0xb8, 0xed, 0x3a,
];

/// The flash of number 7.
const MADE: [u8; 32] = [
    0x0a, 0x65, 0xe2, 0x55, 0x8f, 0x25, 0xc8, 0xbe, 0x07, 0xdf, 0xc6, 0x91, 0xdd, 0xe7, 0xb4, 0x2c,
    0x21, 0xe4, 0xdb, 0x43, 0xc7, 0xc7, 0x16, 0x93, 0x9b, 0xe1, 0x8a, 0xaf, 0x08, 0x44, 0x57, 0xc6,
];

/// A binary of so many words: SP and PC, the least block at 0x114, and 0xff elsewhere.
fn binary(alloc: Global, words: u32) -> Result<Vec<u8>, AllocError>
    requires { words ≤ 16320 }
    ensures { IfOk result (λ bytes. length bytes.items ≤ 65280) }
{
    let mut bytes = Vec::new(alloc);
    for place in 0..words {
        let word = match place {
            0 => 0x2008_2000,
            1 => 0x1000_0201,
            _ => BLOCK
                .get(place.wrapping_sub(0x45) as usize)
                .copied()
                .unwrap_or(0xffff_ffff),
        };
        bytes.extend_from_slice(&word.to_le_bytes())?;
    }
    Ok(bytes)
}

/// The window of the sectors 2 to 31.
fn slot() -> Window
    ensures { IsPlanned result }
{
    Window {
        start: 0x2000,
        len: 0x1e000,
    }
}

#[test]
fn the_least_image_is_sealed_and_planned(rt: HostRuntime) -> Result<(), Fail> {
    let alloc = rt.alloc();
    let bytes = binary(alloc, 74)?;
    let mut sealed = Vec::new(alloc);
    assert_eq!(rt; seal(alloc, &bytes, &spec(9), &mut sealed), Ok(0x128));
    assert_eq!(rt; sealed.len(), 384);
    assert_eq!(rt; sha256(&sealed), LEAST_SEALED);
    let mut script = Vec::new(alloc);
    assert_eq!(rt; plan(alloc, slot(), &sealed, &mut script), Ok(()));
    assert_eq!(rt; sha256(&script), PLANNED);
    Ok(())
}

#[test]
fn the_flash_of_a_number_is_made(rt: HostRuntime) -> Result<(), Fail> {
    let alloc = rt.alloc();
    let mut flash = Vec::new(alloc);
    generate(alloc, 7, &mut flash)?;
    assert_eq!(rt; flash.len(), 1_048_576);
    assert_eq!(rt; sha256(&flash), MADE);
    Ok(())
}
