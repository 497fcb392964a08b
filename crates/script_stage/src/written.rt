//! What a window has once an image is written there.

ghost use Rattle.std.specs.Prelude.{◌≡◌, ◌≤◌, IfOk, OnOk, drop, length};
ghost use Rattle.pico_board.specs.declared.window.TheConstants.{MOST_FLASH_BYTES};
ghost use Rattle.script_plan.specs.Plans.{in_sectors};
ghost use Rattle.script_stage.specs.Written.{filled_to, in_pages, written_sectors, written_window};

use pico_board::{ERASED, PAGE, SECTOR, View};
use std::alloc::{AllocError, Global};

/// Fills bytes with this byte to so many.
fn fill(bytes: &mut Vec<u8>, byte: u8, size: usize) -> Result<(), AllocError>
    requires { length bytes.old.items ≤ size }
    ensures bytes { OnOk result (bytes.new.items ≡ filled_to byte size bytes.old.items) }
    ensures long { OnOk result (length bytes.new.items ≡ size) }
{
    bytes.resize(size, byte)
}

/// An image, 0 to the end of its last page, and 0xff to the end of its last sector.
fn written_sectors(alloc: Global, image: &[u8]) -> Result<Vec<u8>, AllocError>
    requires { length image.now ≤ MOST_FLASH_BYTES }
    ensures bytes { IfOk result (λ sectors. sectors.items ≡ written_sectors image.now) }
    ensures long { IfOk result (λ sectors. length sectors.items ≡ in_sectors (length image.now)) }
{
    let pages = PAGE as usize * ((image.len() + (PAGE as usize - 1)) / PAGE as usize);
    let sectors = SECTOR as usize * ((image.len() + (SECTOR as usize - 1)) / SECTOR as usize);
    let mut bytes = Vec::from_slice(alloc, image)?;
    fill(&mut bytes, 0, pages)?;
    fill(&mut bytes, ERASED, sectors)?;
    Ok(bytes)
}

/// The bytes of a view from an offset on.
fn bytes_from<V: View>(alloc: Global, view: &V, start: u32) -> Result<Vec<u8>, AllocError>
    requires { start ≤ length (V.bytes view.now) }
    ensures { IfOk result (λ rest. rest.items ≡ drop start (V.bytes view.now)) }
{
    let mut rest = vec![in alloc; 0u8; (view.len() - start) as usize]?;
    view.read(start, &mut rest);
    Ok(rest)
}

/// The bytes of a window of whole sectors once an image is written there, whatever the rights: the
/// image, 0 to the end of its last page, 0xff to the end of its last sector, and behind it what the
/// view of the window has. It fails only where memory is out.
pub fn written_window<V: View>(alloc: Global, view: &V, image: &[u8]) -> Result<Vec<u8>, AllocError>
    requires { in_sectors (length image.now) ≤ length (V.bytes view.now) }
    ensures bytes { IfOk result (λ written. written.items
        ≡ written_window image.now (V.bytes view.now)) }
    ensures long { IfOk result (λ written. length written.items ≡ length (V.bytes view.now)) }
{
    let mut written = written_sectors(alloc, image)?;
    let rest = bytes_from(alloc, view, written.len() as u32)?;
    written.extend_from_slice(&rest)?;
    Ok(written)
}
