//! The lines of a text.
ghost use Rattle.std.specs.Prelude.{◌≡◌, IfOk};
ghost use Rattle.script_drawing.specs.Drawing.{text_lines};
ghost use Rattle.script_drawing.specs.Listing.{told};

use std::alloc::{AllocError, Global};

/// Returns the parts of a text between its line feeds.
pub fn split_lines<'a>(alloc: Global, text: &'a str) -> Result<Vec<&'a str>, AllocError>
    ensures { IfOk result (λ lines. told lines.items ≡ text_lines text.now) }
{
    let mut lines = Vec::new(alloc);
    let mut rest = text;
    while let Some((line, more)) = rest.split_once('\n') {
        lines.push(line)?;
        rest = more;
    }
    lines.push(rest)?;
    Ok(lines)
}
