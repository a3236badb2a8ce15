//! The parts of headers, and attributes and modifiers.

ghost use Rattle.std.specs.Prelude.{◌≡◌, ◌++◌, OnOk};
ghost use Rattle.evo_tree.specs.Canonical.{attr_text, availability_text, constraint_text, generic_text, header_text, inherited_text, modifier_text, parameter_label_text, parameter_text, payload_text, release_text, requirement_text};

use crate::label::{print_label, print_typed};
use crate::part::{Part, print_joined, print_optional, print_unless_empty};
use crate::printer::Printer;
use crate::words;
use evo_base::{List, Release};
use evo_tree::{
    Attr, AttrKind, Availability, GenericParameter, Header, Modifier, Parameter, ParameterLabel,
    Payload, Requirement, TypeName,
};
use std::alloc::AllocError;

pub(crate) fn print_release(out: &mut Printer, release: Release) -> Result<(), AllocError>
    ensures { OnOk result (out.new ≡ out.old ++ release_text release) }
{
    out.put_number(u64::from(release.major))?;
    out.put(b".")?;
    out.put_number(u64::from(release.minor))
}

fn print_availability(out: &mut Printer, availability: Availability) -> Result<(), AllocError>
    ensures { OnOk result (out.new ≡ out.old ++ availability_text availability) }
{
    match availability {
        Availability::Deprecated => out.put(b"*, deprecated"),
        Availability::Unavailable => out.put(b"*, unavailable"),
        Availability::Introduced(release) => {
            out.put(b"macOS ")?;
            print_release(out, release)?;
            out.put(b", *")
        }
    }
}

fn print_attr(out: &mut Printer, kind: AttrKind) -> Result<(), AllocError>
    ensures { OnOk result (out.new ≡ out.old ++ attr_text kind) }
{
    match kind {
        AttrKind::Frozen => out.put(b"@frozen "),
        AttrKind::Inlinable => out.put(b"@inlinable "),
        AttrKind::UsableFromInline => out.put(b"@usableFromInline "),
        AttrKind::Available(availability) => {
            out.put(b"@available(")?;
            print_availability(out, availability)?;
            out.put(b") ")
        }
    }
}

impl Part for Attr {
    ghost text = { λ a. attr_text a.kind };

    fn print(&self, out: &mut Printer) -> Result<(), AllocError> {
        print_attr(out, self.kind)
    }
}

impl Part for Modifier {
    ghost text = { λ m. modifier_text m.kind };

    fn print(&self, out: &mut Printer) -> Result<(), AllocError> {
        out.put(words::modifier(self.kind))
    }
}

/// `:` and protocols with `&`, where there are any.
pub(crate) fn print_constraint(
    out: &mut Printer,
    protocols: &List<TypeName>,
) -> Result<(), AllocError>
    ensures { OnOk result (out.new ≡ out.old ++ constraint_text protocols.now) }
{
    print_unless_empty(out, b": ", protocols, b" & ", b"")
}

/// `:` and types with commas, where there are any.
pub(crate) fn print_inherited(out: &mut Printer, types: &List<TypeName>) -> Result<(), AllocError>
    ensures { OnOk result (out.new ≡ out.old ++ inherited_text types.now) }
{
    print_unless_empty(out, b": ", types, b", ", b"")
}

impl Part for GenericParameter {
    ghost text = { generic_text };

    fn print(&self, out: &mut Printer) -> Result<(), AllocError> {
        self.name.print(out)?;
        print_constraint(out, &self.protocols)
    }
}

fn print_parameter_label(out: &mut Printer, label: &ParameterLabel) -> Result<(), AllocError>
    ensures { OnOk result (out.new ≡ out.old ++ parameter_label_text label.now) }
{
    match label {
        ParameterLabel::Same => Ok(()),
        ParameterLabel::Blank => out.put(b"_ "),
        ParameterLabel::Written(name) => {
            name.print(out)?;
            out.put(b" ")
        }
    }
}

impl Part for Parameter {
    ghost text = { parameter_text };

    fn print(&self, out: &mut Printer) -> Result<(), AllocError> {
        print_parameter_label(out, &self.label)?;
        self.name.print(out)?;
        print_typed(out, &self.type_name)
    }
}

impl Part for Requirement {
    ghost text = { requirement_text };

    fn print(&self, out: &mut Printer) -> Result<(), AllocError> {
        match self {
            Requirement::Conforms(type_name, protocols) => {
                type_name.print(out)?;
                print_constraint(out, protocols)
            }
            Requirement::Same(left, _, right) => {
                left.print(out)?;
                out.put(b" == ")?;
                right.print(out)
            }
        }
    }
}

impl Part for Payload {
    ghost text = { payload_text };

    fn print(&self, out: &mut Printer) -> Result<(), AllocError> {
        print_label(out, &self.label)?;
        self.type_name.print(out)
    }
}

impl Part for Header {
    ghost text = { header_text };

    fn print(&self, out: &mut Printer) -> Result<(), AllocError> {
        print_unless_empty(out, b"<", &self.generics, b", ", b">")?;
        out.put(b"(")?;
        print_joined(out, self.parameters.as_slice(), b", ")?;
        out.put(b")")?;
        print_optional(out, b" -> ", &self.result)?;
        print_unless_empty(out, b" where ", &self.requirements, b", ", b"")
    }
}
