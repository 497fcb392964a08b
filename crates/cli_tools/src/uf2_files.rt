//! The UF2 file of an image.

ghost use Rattle.std.specs.Prelude.{◌≡◌, IfOk};
ghost use Rattle.cli_course.specs.Outcomes.{worked};
ghost use Rattle.cli_tools.specs.ToolWorks.{uf2_work};
ghost use Rattle.cli_course.specs.Views.{answer_from};

use cli_course::{Answer, one_file, refusal};
use cli_inputs::Image;
use std::alloc::{AllocError, Global};
use uf2_place::{Uf2WriteFault, write_uf2};

/// The work of `uf2` on an image: the number of blocks, and the file. Or it
/// refuses an empty image, by its argument. It fails only where memory is out.
pub fn uf2<'a>(
    alloc: Global,
    name: &str,
    family: u32,
    out: &'a str,
    image: &Image,
) -> Result<Answer<'a>, AllocError>
    ensures { IfOk result (λ answer. answer_from answer
        ≡ worked (uf2_work name.now family out.entry.now image.now.bytes.items)) }
{
    let mut file = Vec::new(alloc);
    match write_uf2(alloc, &image.bytes, family, &mut file) {
        Ok(()) => {
            let blocks = image.bytes.len().div_ceil(256);
            let text = format!(in alloc; "uf2 blocks={blocks}\n")?;
            one_file(alloc, text, out, file)
        }
        Err(Uf2WriteFault::Empty) => refusal(alloc, name, "empty"),
        Err(Uf2WriteFault::TooLarge) => unreachable!(),
        Err(Uf2WriteFault::Memory) => Err(AllocError),
    }
}
