//! Patterns, and the labels of clauses.

ghost use Rattle.std.specs.Prelude.{◌≡◌, ◌++◌, OnOk, codes};
ghost use Rattle.evo_tree.specs.Canonical.{binding_text, bound_text, clause_text, listed, name_text, optional, pattern_text, type_text};

use crate::label::{print_label, print_named};
use crate::literal::{print_negative, print_string};
use crate::part::{Part, print_joined, print_optional};
use crate::printer::Printer;
use crate::words;
use evo_base::List;
use evo_tree::{Binding, ClauseLabel, Identifier, Pattern, TypeName};
use std::alloc::AllocError;

/// What a value of a payload is bound to.
fn print_bound(out: &mut Printer, name: &Option<Identifier>) -> Result<(), AllocError>
    ensures { OnOk result (out.new ≡ out.old ++ bound_text name.now) }
{
    match name {
        Some(name) => print_named(out, b"let ", name),
        None => out.put(b"_"),
    }
}

impl Part for Binding {
    ghost text = { binding_text };

    fn print(&self, out: &mut Printer) -> Result<(), AllocError> {
        print_label(out, &self.label)?;
        print_bound(out, &self.name)
    }
}

/// What is done with a payload, where that is written.
fn print_bindings(out: &mut Printer, bindings: &Option<List<Binding>>) -> Result<(), AllocError>
    ensures { OnOk result (out.new ≡ out.old ++ optional (λ b. codes "(" ++ listed binding_text b ++ codes ")") bindings.now) }
{
    match bindings {
        Some(bindings) => {
            out.put(b"(")?;
            print_joined(out, bindings.as_slice(), b", ")?;
            out.put(b")")
        }
        None => Ok(()),
    }
}

/// A case of an enum.
fn print_case(
    out: &mut Printer,
    type_name: &Option<TypeName>,
    name: &Identifier,
    bindings: &Option<List<Binding>>,
) -> Result<(), AllocError>
    ensures { OnOk result (out.new ≡ out.old
        ++ (optional type_text type_name.now ++ codes "." ++ name_text name.now ++ optional (λ b. codes "(" ++ listed binding_text b ++ codes ")") bindings.now)) }
{
    print_optional(out, b"", type_name)?;
    print_named(out, b".", name)?;
    print_bindings(out, bindings)
}

impl Part for Pattern {
    ghost text = { pattern_text };

    fn print(&self, out: &mut Printer) -> Result<(), AllocError> {
        match self {
            Pattern::Case(_, type_name, name, bindings) => {
                print_case(out, type_name, name, bindings)
            }
            Pattern::Integer(_, value) => out.put_number(*value),
            Pattern::Negative(_, value) => print_negative(out, *value),
            Pattern::String(_, characters) => print_string(out, characters),
            Pattern::Boolean(_, value) => out.put(words::boolean(*value)),
        }
    }
}

impl Part for ClauseLabel {
    ghost text = { clause_text };

    fn print(&self, out: &mut Printer) -> Result<(), AllocError> {
        match self {
            ClauseLabel::Case(patterns) => {
                out.put(b"case ")?;
                print_joined(out, patterns.as_slice(), b", ")?;
                out.put(b":")
            }
            ClauseLabel::Default => out.put(b"default:"),
            ClauseLabel::UnknownDefault => out.put(b"@unknown default:"),
        }
    }
}
