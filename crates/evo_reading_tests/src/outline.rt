//! Modules in outline: what is declared, and what kinds of statements there are.
//!
//! Members stand in `[ ]`, separated by `; `. A block is `{..}`, and headers and types are left out.

use evo_base::{List, Name};
use evo_tree::{
    Accessors, Attr, AttrKind, Availability, Block, Decl, DeclKind, Identifier, Introducer, Item,
    Modifier, ModifierKind, Module, NominalKind, Stmt, TypeName,
};
use sqlite_items::Items;
use std::alloc::{AllocError, Global};
use std::fmt::Write;

fn put(out: &mut String, name: &Name) -> Result<(), AllocError> {
    if let Ok(text) = str::from_utf8(name.as_slice()) {
        out.push_str(text)?;
    }
    Ok(())
}

// A mark between two things, which is left out before the first.
fn show_mark(out: &mut String, first: bool, mark: &str) -> Result<(), AllocError> {
    if !first {
        out.push_str(mark)?;
    }
    Ok(())
}

fn show_named(out: &mut String, before: &str, name: &Identifier) -> Result<(), AllocError> {
    out.push_str(before)?;
    put(out, &name.text)
}

fn show_type(out: &mut String, type_name: &TypeName) -> Result<(), AllocError> {
    let mut dot = "";
    for name in type_name.names.as_slice() {
        out.push_str(dot)?;
        put(out, name)?;
        dot = ".";
    }
    Ok(())
}

fn introduced(introducer: Introducer) -> &'static str {
    match introducer {
        Introducer::Let => "let ",
        Introducer::Var => "var ",
    }
}

// What kind of statement it is.
fn kind(statement: &Stmt) -> &'static str {
    match statement {
        Stmt::Local(..) => "local",
        Stmt::Discard(..) => "discard",
        Stmt::Assign(..) => "assign",
        Stmt::Expr(_) => "expr",
        Stmt::SelfInit(..) => "self.init",
        Stmt::SuperInit(..) => "super.init",
        Stmt::If(..) => "if",
        Stmt::While(..) => "while",
        Stmt::Return(..) => "return",
        Stmt::Break(_) => "break",
        Stmt::Continue(_) => "continue",
        Stmt::Switch(..) => "switch",
    }
}

fn show_availability(out: &mut String, availability: Availability) -> Result<(), AllocError> {
    match availability {
        Availability::Deprecated => Ok(out.push_str("@available(*, deprecated) ")?),
        Availability::Unavailable => Ok(out.push_str("@available(*, unavailable) ")?),
        Availability::Introduced(release) => Ok(write!(
            out,
            "@available(macOS {}.{}, *) ",
            release.major, release.minor
        )?),
    }
}

fn show_attributes(out: &mut String, attrs: &List<Attr>) -> Result<(), AllocError> {
    for attr in attrs.as_slice() {
        match attr.kind {
            AttrKind::Frozen => out.push_str("@frozen ")?,
            AttrKind::Inlinable => out.push_str("@inlinable ")?,
            AttrKind::UsableFromInline => out.push_str("@usableFromInline ")?,
            AttrKind::Available(availability) => show_availability(out, availability)?,
        }
    }
    Ok(())
}

fn modifier(kind: ModifierKind) -> &'static str {
    match kind {
        ModifierKind::Open => "open ",
        ModifierKind::Public => "public ",
        ModifierKind::Internal => "internal ",
        ModifierKind::Private => "private ",
        ModifierKind::Final => "final ",
        ModifierKind::Static => "static ",
        ModifierKind::Override => "override ",
        ModifierKind::Mutating => "mutating ",
    }
}

fn show_modifiers(out: &mut String, modifiers: &List<Modifier>) -> Result<(), AllocError> {
    for word in modifiers.as_slice() {
        out.push_str(modifier(word.kind))?;
    }
    Ok(())
}

fn show_body(out: &mut String, body: &Option<Block>) -> Result<(), AllocError> {
    if body.is_some() {
        out.push_str(" {..}")?;
    }
    Ok(())
}

fn show_accessors(out: &mut String, accessors: &Accessors) -> Result<(), AllocError> {
    Ok(out.push_str(match accessors {
        Accessors::Stored => "",
        Accessors::Get => " {get}",
        Accessors::GetSet => " {get set}",
        Accessors::Block(_) => " {..}",
        Accessors::Blocks(_, None) => " {get {..}}",
        Accessors::Blocks(_, Some(_)) => " {get {..} set {..}}",
    })?)
}

fn nominal(kind: NominalKind) -> &'static str {
    match kind {
        NominalKind::Struct => "struct ",
        NominalKind::Enum => "enum ",
        NominalKind::Class => "class ",
        NominalKind::Protocol => "protocol ",
    }
}

#[cycle(members_shown)]
fn show_members(out: &mut String, members: &Items<Decl>) -> Result<(), AllocError> {
    out.push_str(" [")?;
    let mut first = true;
    for member in members.as_slice() {
        show_mark(out, first, "; ")?;
        show_declaration(out, member)?;
        first = false;
    }
    Ok(out.push_str("]")?)
}

#[cycle(members_shown)]
fn show_declared(out: &mut String, declared: &DeclKind) -> Result<(), AllocError> {
    match declared {
        DeclKind::Function(name, _, body) => {
            show_named(out, "func ", name)?;
            show_body(out, body)
        }
        DeclKind::Initialiser(_, body) => {
            out.push_str("init")?;
            show_body(out, body)
        }
        DeclKind::Property(introducer, name, _, accessors) => {
            show_named(out, introduced(*introducer), name)?;
            show_accessors(out, accessors)
        }
        DeclKind::TypeAlias(name, _) => show_named(out, "typealias ", name),
        DeclKind::AssociatedType(name, _, _) => show_named(out, "associatedtype ", name),
        DeclKind::Case(name, _) => show_named(out, "case ", name),
        DeclKind::Nominal(kind, name, _, members) => {
            show_named(out, nominal(*kind), name)?;
            show_members(out, members)
        }
        DeclKind::Extension(type_name, _, members) => {
            out.push_str("extension ")?;
            show_type(out, type_name)?;
            show_members(out, members)
        }
    }
}

#[cycle(members_shown)]
fn show_declaration(out: &mut String, declaration: &Decl) -> Result<(), AllocError> {
    show_attributes(out, &declaration.attrs)?;
    show_modifiers(out, &declaration.modifiers)?;
    show_declared(out, &declaration.kind)
}

fn show_item(out: &mut String, item: &Item) -> Result<(), AllocError> {
    match item {
        Item::Decl(declaration) => show_declaration(out, declaration.get()),
        Item::Stmt(statement) => Ok(out.push_str(kind(statement))?),
    }
}

/// The imports and the items of a module.
pub fn outline(alloc: Global, module: &Module) -> Result<String, AllocError> {
    let tree = module.tree();
    let mut out = String::new(alloc);
    let mut mark = "";
    for import in tree.imports.as_slice() {
        out.push_str(mark)?;
        show_named(&mut out, "import ", import)?;
        mark = "; ";
    }
    for item in tree.items.as_slice() {
        out.push_str(mark)?;
        show_item(&mut out, item)?;
        mark = "; ";
    }
    Ok(out)
}
