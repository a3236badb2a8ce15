//! Declarations, each by how deep it stands.

ghost use Rattle.std.specs.Prelude.{◌≡◌, ◌++◌, OnOk, codes, map};
ghost use Rattle.std.specs.List.{flat_map};
ghost use Rattle.evo_tree.specs.Canonical.{accessors_text, braced, constraint_text, decl_text, introducer_text, listed, name_text, optional, payload_text, type_text, typed, unless_empty};
ghost use Rattle.evo_print.specs.Texts.{kind_text};

use crate::body::{print_accessors, print_body};
use crate::header::{print_constraint, print_inherited};
use crate::label::{print_named, print_typed};
use crate::part::{Part, print_all, print_optional, print_unless_empty};
use crate::printer::{Printer, deeper};
use crate::words;
use evo_base::List;
use evo_tree::{Accessors, Decl, DeclKind, Identifier, Introducer, Payload, TypeName};
use sqlite_items::Items;
use std::alloc::AllocError;

fn print_property(
    out: &mut Printer,
    introducer: Introducer,
    name: &Identifier,
    type_name: &TypeName,
    accessors: &Accessors,
    depth: u64,
) -> Result<(), AllocError>
    ensures { OnOk result (out.new ≡ out.old
        ++ (introducer_text introducer ++ name_text name.now ++ typed type_name.now ++ accessors_text depth accessors.now)) }
{
    print_named(out, words::introducer(introducer), name)?;
    print_typed(out, type_name)?;
    print_accessors(out, accessors, depth)
}

fn print_alias(out: &mut Printer, name: &Identifier, type_name: &TypeName) -> Result<(), AllocError>
    ensures { OnOk result (out.new ≡ out.old ++ (codes "typealias " ++ name_text name.now ++ codes " = " ++ type_text type_name.now)) }
{
    print_named(out, b"typealias ", name)?;
    out.put(b" = ")?;
    type_name.print(out)
}

fn print_associated(
    out: &mut Printer,
    name: &Identifier,
    protocols: &List<TypeName>,
    default: &Option<TypeName>,
) -> Result<(), AllocError>
    ensures { OnOk result (out.new ≡ out.old
        ++ (codes "associatedtype " ++ name_text name.now ++ constraint_text protocols.now ++ optional (λ t. codes " = " ++ type_text t) default.now)) }
{
    print_named(out, b"associatedtype ", name)?;
    print_constraint(out, protocols)?;
    print_optional(out, b" = ", default)
}

fn print_case(
    out: &mut Printer,
    name: &Identifier,
    payload: &List<Payload>,
) -> Result<(), AllocError>
    ensures { OnOk result (out.new ≡ out.old
        ++ (codes "case " ++ name_text name.now ++ unless_empty (codes "(") (listed payload_text) (codes ")") payload.now)) }
{
    print_named(out, b"case ", name)?;
    print_unless_empty(out, b"(", payload, b", ", b")")
}

#[cycle(declarations)]
fn print_decls(out: &mut Printer, items: &Items<Decl>, depth: u64) -> Result<(), AllocError>
    ensures { OnOk result (out.new ≡ out.old ++ flat_map (λ x. decl_text x depth) items.now) }
{
    for decl in items.as_slice() {
        print_decl(out, decl, depth)?;
    }
    Ok(())
}

/// Members in braces, behind a blank. The last line has no line feed yet.
#[cycle(declarations)]
fn print_members(out: &mut Printer, items: &Items<Decl>, depth: u64) -> Result<(), AllocError>
    ensures { OnOk result (out.new ≡ out.old ++ (codes " " ++ braced (map decl_text items.now) depth)) }
{
    let inner = deeper(depth)?;
    out.put(b" {\n")?;
    print_decls(out, items, inner)?;
    out.close(depth)
}

#[cycle(declarations)]
fn print_kind(out: &mut Printer, kind: &DeclKind, depth: u64) -> Result<(), AllocError>
    ensures { OnOk result (out.new ≡ out.old ++ kind_text kind.now depth) }
{
    match kind {
        DeclKind::Function(name, header, body) => {
            print_named(out, b"func ", name)?;
            header.print(out)?;
            print_body(out, body, depth)
        }
        DeclKind::Initialiser(header, body) => {
            out.put(b"init")?;
            header.print(out)?;
            print_body(out, body, depth)
        }
        DeclKind::Property(introducer, name, type_name, accessors) => {
            print_property(out, *introducer, name, type_name, accessors, depth)
        }
        DeclKind::TypeAlias(name, type_name) => print_alias(out, name, type_name),
        DeclKind::AssociatedType(name, protocols, default) => {
            print_associated(out, name, protocols, default)
        }
        DeclKind::Case(name, payload) => print_case(out, name, payload),
        DeclKind::Nominal(kind, name, inherited, members) => {
            print_named(out, words::nominal(*kind), name)?;
            print_inherited(out, inherited)?;
            print_members(out, members, depth)
        }
        DeclKind::Extension(type_name, inherited, members) => {
            out.put(b"extension ")?;
            type_name.print(out)?;
            print_inherited(out, inherited)?;
            print_members(out, members, depth)
        }
    }
}

/// A declaration, on lines of its own.
#[cycle(declarations)]
pub(crate) fn print_decl(out: &mut Printer, decl: &Decl, depth: u64) -> Result<(), AllocError>
    ensures { OnOk result (out.new ≡ out.old ++ decl_text decl.now depth) }
{
    out.put_indent(depth)?;
    print_all(out, decl.attrs.as_slice())?;
    print_all(out, decl.modifiers.as_slice())?;
    print_kind(out, &decl.kind, depth)?;
    out.put(b"\n")
}
