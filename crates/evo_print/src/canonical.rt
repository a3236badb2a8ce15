//! Whole modules.

ghost use Rattle.std.specs.Prelude.{◌≡◌, ◌++◌, IfOk, OnOk};
ghost use Rattle.std.specs.List.{flat_map};
ghost use Rattle.evo_tree.specs.Canonical.{canonical_text, first_lines, head_text, import_text, item_text};

use crate::declaration::print_decl;
use crate::header::print_release;
use crate::label::print_named;
use crate::part::{Part, print_all};
use crate::printer::Printer;
use crate::statement::print_stmt;
use evo_base::{Name, Release};
use evo_tree::{Form, Identifier, Item, Module, ModuleTree};
use std::alloc::{AllocError, Global};

impl Part for Item {
    ghost text = { item_text };

    fn print(&self, out: &mut Printer) -> Result<(), AllocError> {
        match self {
            Item::Decl(decl) => print_decl(out, decl.get(), 0),
            Item::Stmt(stmt) => print_stmt(out, stmt, 0),
        }
    }
}

/// The two first lines of an interface.
fn print_head(out: &mut Printer, name: &Name, release: Release) -> Result<(), AllocError>
    ensures { OnOk result (out.new ≡ out.old ++ head_text name.now release) }
{
    out.put(b"// swift-interface-format-version: 1.0\n// swevo-module: ")?;
    name.print(out)?;
    out.put(b" ")?;
    print_release(out, release)?;
    out.put(b"\n")
}

/// The first lines of a module, if it is an interface.
fn print_first_lines(
    out: &mut Printer,
    form: &Form,
    name: &Name,
    release: Option<Release>,
) -> Result<(), AllocError>
    ensures { OnOk result (out.new ≡ out.old ++ first_lines form.now name.now release) }
{
    match form {
        Form::Interface => match release {
            Some(release) => print_head(out, name, release),
            None => Ok(()),
        },
        Form::Library(_) => Ok(()),
        Form::Client => Ok(()),
    }
}

fn print_imports(out: &mut Printer, imports: &[Identifier]) -> Result<(), AllocError>
    ensures { OnOk result (out.new ≡ out.old ++ flat_map import_text imports.now) }
{
    for name in imports {
        print_named(out, b"import ", name)?;
        out.put(b"\n")?;
    }
    Ok(())
}

fn print_tree(out: &mut Printer, tree: &ModuleTree) -> Result<(), AllocError>
    ensures { OnOk result (out.new ≡ out.old ++ canonical_text tree.now) }
{
    print_first_lines(out, &tree.form, &tree.name, tree.release)?;
    print_imports(out, tree.imports.as_slice())?;
    print_all(out, tree.items.as_slice())
}

/// The canonical text of a module. Only memory can fail.
pub fn print(alloc: Global, module: &Module) -> Result<Vec<u8>, AllocError>
    ensures { IfOk result (λ text. text.items ≡ canonical_text «module».now) }
{
    let mut out = Printer::new(alloc);
    print_tree(&mut out, module.tree())?;
    Ok(out.into_text())
}
