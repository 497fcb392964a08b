//! Lists of lines.

ghost use Rattle.std.specs.Prelude.{◌≡◌, ◌++◌, OnOk};
ghost use Rattle.check_images.specs.Lines.{option_list};

use std::alloc::AllocError;

/// Appends the line, where there is one.
pub(crate) fn push_line<X: Drop>(lines: &mut Vec<X>, line: Option<X>) -> Result<(), AllocError>
    ensures { OnOk result (lines.new.items ≡ lines.old.items ++ option_list line) }
{
    if let Some(line) = line {
        lines.push(line)?;
    }
    Ok(())
}
