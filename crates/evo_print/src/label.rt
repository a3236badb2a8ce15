//! Names, types and labels.

ghost use Rattle.std.specs.Prelude.{◌≡◌, ◌++◌, OnOk};
ghost use Rattle.evo_tree.specs.Canonical.{label_text, name_text, type_text, typed};

use crate::part::{Part, print_joined};
use crate::printer::Printer;
use evo_base::Name;
use evo_tree::{Identifier, TypeName};
use std::alloc::AllocError;

impl Part for Name {
    ghost text = { λ n. n };

    fn print(&self, out: &mut Printer) -> Result<(), AllocError> {
        out.put(self.as_slice())
    }
}

impl Part for Identifier {
    ghost text = { name_text };

    fn print(&self, out: &mut Printer) -> Result<(), AllocError> {
        self.text.print(out)
    }
}

impl Part for TypeName {
    ghost text = { type_text };

    fn print(&self, out: &mut Printer) -> Result<(), AllocError> {
        print_joined(out, self.names.as_slice(), b".")
    }
}

/// A word, and a name behind it.
pub(crate) fn print_named(
    out: &mut Printer,
    word: &[u8],
    name: &Identifier,
) -> Result<(), AllocError>
    ensures { OnOk result (out.new ≡ out.old ++ (word.now ++ name_text name.now)) }
{
    out.put(word)?;
    name.print(out)
}

/// A label with its colon, where there is one.
pub(crate) fn print_label(out: &mut Printer, label: &Option<Identifier>) -> Result<(), AllocError>
    ensures { OnOk result (out.new ≡ out.old ++ label_text label.now) }
{
    match label {
        Some(name) => {
            name.print(out)?;
            out.put(b": ")
        }
        None => Ok(()),
    }
}

/// A type behind a colon.
pub(crate) fn print_typed(out: &mut Printer, type_name: &TypeName) -> Result<(), AllocError>
    ensures { OnOk result (out.new ≡ out.old ++ typed type_name.now) }
{
    out.put(b": ")?;
    type_name.print(out)
}
