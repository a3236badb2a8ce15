//! Parts with a text, and lists of them.

ghost use Rattle.std.specs.Prelude.{◌≡◌, ◌++◌, ℕ, List, OnOk};
ghost use Rattle.std.specs.List.{flat_map, join_by};
ghost use Rattle.evo_tree.specs.Canonical.{optional, unless_empty};

use crate::printer::Printer;
use evo_base::List;
use std::alloc::AllocError;

/// A part whose text is the same wherever it stands.
pub(crate) trait Part {
    /// Its text.
    ghost text: { Self → List ℕ };

    fn print(&self, out: &mut Printer) -> Result<(), AllocError>
        ensures { OnOk result (out.new ≡ out.old ++ text self.now) };
}

/// Parts with nothing between them.
pub(crate) fn print_all<T: Part>(out: &mut Printer, parts: &[T]) -> Result<(), AllocError>
    ensures { OnOk result (out.new ≡ out.old ++ flat_map T.text parts.now) }
{
    for part in parts {
        part.print(out)?;
    }
    Ok(())
}

/// Parts with a mark between each two.
pub(crate) fn print_joined<T: Part>(
    out: &mut Printer,
    parts: &[T],
    mark: &[u8],
) -> Result<(), AllocError>
    ensures { OnOk result (out.new ≡ out.old ++ join_by T.text mark.now parts.now) }
{
    for (index, part) in parts.iter().enumerate() {
        out.put_between(index, mark)?;
        part.print(out)?;
    }
    Ok(())
}

/// Parts with a mark between each two and a text on either side, where there are any.
pub(crate) fn print_unless_empty<T: Part>(
    out: &mut Printer,
    before: &[u8],
    parts: &List<T>,
    mark: &[u8],
    behind: &[u8],
) -> Result<(), AllocError>
    ensures { OnOk result (out.new ≡ out.old ++ unless_empty before.now (join_by T.text mark.now) behind.now parts.now) }
{
    let parts = parts.as_slice();
    if parts.is_empty() {
        return Ok(());
    }
    out.put(before)?;
    print_joined(out, parts, mark)?;
    out.put(behind)
}

/// A part behind a text, where there is one.
pub(crate) fn print_optional<T: Part>(
    out: &mut Printer,
    before: &[u8],
    part: &Option<T>,
) -> Result<(), AllocError>
    ensures { OnOk result (out.new ≡ out.old ++ optional (λ x. before.now ++ T.text x) part.now) }
{
    match part {
        Some(part) => {
            out.put(before)?;
            part.print(out)
        }
        None => Ok(()),
    }
}
