//! The lines of the report.

ghost use Rattle.std.specs.Prelude.{◌≡◌, IfOk};
ghost use Rattle.evo_first_form.specs.Rules.{removed_line};

use evo_base::Name;
use std::alloc::{AllocError, Global};

/// The line on a function of the library's old release that its new release does not have. Only memory
/// can fail.
pub fn report_line(alloc: Global, library: &Name, name: &Name) -> Result<Vec<u8>, AllocError>
    ensures { IfOk result (λ line. line.items ≡ removed_line library.now name.now) }
{
    let library = library.as_slice();
    let pieces: [&[u8]; 7] = [
        b"E1 old ",
        library,
        b".",
        name.as_slice(),
        b"() new ",
        library,
        b": declaration removed\n",
    ];
    pieces.concat(alloc)
}
