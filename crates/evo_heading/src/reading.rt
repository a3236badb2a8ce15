//! Whole headings.

ghost use Rattle.std.specs.Prelude.{IfOk};
ghost use Rattle.evo_heading.specs.Heading.{Heads};

use crate::lines::Heading;
use crate::parts::{behind_line_end, behind_opening, module_name, release};
use std::alloc::{AllocError, Global};

/// The heading with which the text begins, or `None` where it begins with none. An error is want of memory.
pub fn heading(alloc: Global, text: &[u8]) -> Result<Option<Heading>, AllocError>
    ensures { IfOk result (Heads text.now) }
{
    let Some(rest) = behind_opening(text) else {
        return Ok(None);
    };
    let Some((name, rest)) = module_name(alloc, rest)? else {
        return Ok(None);
    };
    let Some((release, rest)) = release(alloc, rest)? else {
        return Ok(None);
    };
    let Some(_) = behind_line_end(rest) else {
        return Ok(None);
    };
    Ok(Some(Heading { name, release }))
}
