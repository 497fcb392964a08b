//! The script of a host that copies a UF2 file to the board's drive.

ghost use Rattle.std.specs.Prelude.{◌≡◌, ◌*◌, ◌/◌, ◌++◌, IfOk, OnOk, length, string_bytes};
ghost use Rattle.std.specs.List.{flat_map};
ghost use Rattle.boot_script.specs.Written.{written_event};
ghost use Rattle.boot_script.specs.Events.{Uf2 as CopiesBlock};
ghost use Rattle.cli_course.specs.Outcomes.{worked};
ghost use Rattle.cli_course.specs.Views.{answer_from};
ghost use Rattle.script_text.specs.Reading.{script_of};
ghost use Rattle.cli_scripts.specs.Copies.{blocks_in, copy_events, copy_line, copy_work};

use boot_script::{Event, write_event};
use cli_course::{Answer, one_file};
use cli_inputs::Uf2;
use pico_board::BootKind;
use std::alloc::{AllocError, Global};

/// The bytes of a UF2 block.
const BLOCK: usize = 512;

/// The line of so many blocks.
fn copy_line(alloc: Global, blocks: usize) -> Result<String, AllocError>
    ensures { IfOk result (λ t. string_bytes t ≡ copy_line blocks) }
{
    format!(in alloc; "copy blocks={blocks}\n")
}

/// Appends the events of the blocks, in file order.
fn push_blocks(alloc: Global, uf2: &[u8], script: &mut Vec<u8>) -> Result<(), AllocError>
    ensures { OnOk result (script.new.items ≡ script.old.items
        ++ flat_map (λ block. written_event (CopiesBlock block))
        (blocks_in (length uf2.now / 512) uf2.now)) }
{
    let mut rest = uf2;
    for _ in 0..uf2.len() / BLOCK {
        let Some((block, behind)) = rest.split_first_chunk::<512>() else {
            return Ok(());
        };
        write_event(alloc, &Event::Uf2(block), script)?;
        rest = behind;
    }
    Ok(())
}

/// The script that copies a file. It fails only where memory is out.
fn copy_script(alloc: Global, uf2: &[u8]) -> Result<Vec<u8>, AllocError>
    ensures { IfOk result (λ script. script.items
        ≡ script_of (copy_events (blocks_in (length uf2.now / 512) uf2.now))) }
{
    let mut script = Vec::new(alloc);
    write_event(alloc, &Event::PowerOn, &mut script)?;
    write_event(alloc, &Event::Reset(BootKind::Bootsel), &mut script)?;
    push_blocks(alloc, uf2, &mut script)?;
    write_event(alloc, &Event::End, &mut script)?;
    Ok(script)
}

/// The work of `copy` on a UF2 file: the number of its blocks, and the script
/// that copies them in file order to a board in BOOTSEL. The blocks are not judged. It fails only
/// where memory is out.
pub fn copy_uf2<'a>(alloc: Global, uf2: Uf2<'_>, out: &'a str) -> Result<Answer<'a>, AllocError>
    ensures { IfOk result (λ answer. answer_from answer
        ≡ worked (copy_work out.entry.now uf2.entry.bytes.now)) }
{
    let line = copy_line(alloc, uf2.bytes.len() / BLOCK)?;
    let script = copy_script(alloc, uf2.bytes)?;
    one_file(alloc, line, out, script)
}
