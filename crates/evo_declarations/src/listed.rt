//! Declarations with what they stand in.

ghost use Rattle.std.specs.Prelude.{◌≡◌, ◌++◌, ◌∷◌, IfOk, OnOk, flat_map, map};
ghost use Rattle.evo_declarations.specs.Views.{entries_of, listing_view, within_of};
ghost use Rattle.evo_names.specs.Listed as names;

use evo_base::Name;
use evo_tree::{Decl, DeclKind, Form, Identifier, Item, ModuleTree, NominalKind, TypeName};
use std::alloc::{AllocError, Global};

/// What a declaration stands in.
#[derive(Clone, Copy)]
pub enum Within<'a> {
    Top,
    /// The braces of a type or protocol, by its kind and name.
    Braces(NominalKind, &'a Name),
    /// An extension, by the type that it names.
    Extension(&'a TypeName),
}

/// A declaration, and what it stands in.
#[derive(Clone, Copy)]
pub struct Listed<'a> {
    pub within: Within<'a>,
    pub decl: &'a Decl,
}

/// A module as the list of its declarations: what stands at top level, and behind a type or an extension its members.
#[derive(Drop)]
pub struct Listing<'a> {
    pub form: &'a Form,
    pub name: &'a Name,
    pub imports: &'a [Identifier],
    pub entries: Vec<Listed<'a>>,
}

fn push_members<'a>(
    found: &mut Vec<Listed<'a>>,
    within: Within<'a>,
    members: &'a [Decl],
) -> Result<(), AllocError>
    ensures { OnOk result (entries_of found.new.items ≡ entries_of found.old.items ++ map (names.entry (within_of within.entry)) members.now) }
{
    for decl in members {
        found.push(Listed { within, decl })?;
    }
    Ok(())
}

fn push_declaration<'a>(found: &mut Vec<Listed<'a>>, decl: &'a Decl) -> Result<(), AllocError>
    ensures { OnOk result (entries_of found.new.items ≡ entries_of found.old.items ++ names.entry names.top decl.now ∷ names.member_entries (names.kind_of decl.now)) }
{
    found.push(Listed {
        within: Within::Top,
        decl,
    })?;
    match &decl.kind {
        DeclKind::Nominal(kind, name, _, members) => {
            push_members(found, Within::Braces(*kind, &name.text), members.as_slice())
        }
        DeclKind::Extension(extended, _, members) => {
            push_members(found, Within::Extension(extended), members.as_slice())
        }
        _ => Ok(()),
    }
}

fn push_item<'a>(found: &mut Vec<Listed<'a>>, item: &'a Item) -> Result<(), AllocError>
    ensures { OnOk result (entries_of found.new.items ≡ entries_of found.old.items ++ names.item_entries item.now) }
{
    match item {
        Item::Decl(decl) => push_declaration(found, decl.get()),
        Item::Stmt(_) => Ok(()),
    }
}

fn listed_items<'a>(alloc: Global, items: &'a [Item]) -> Result<Vec<Listed<'a>>, AllocError>
    ensures { IfOk result (λ found. entries_of found.items ≡ flat_map names.item_entries items.now) }
{
    let mut found = Vec::new(alloc);
    for item in items {
        push_item(&mut found, item)?;
    }
    Ok(found)
}

impl<'a> Listing<'a> {
    /// The declarations of a module.
    pub fn of(alloc: Global, tree: &'a ModuleTree) -> Result<Listing<'a>, AllocError>
        ensures { IfOk result (λ l. listing_view l ≡ names.listing_of tree.now) }
    {
        let entries = listed_items(alloc, tree.items.as_slice())?;
        Ok(Listing {
            form: &tree.form,
            name: &tree.name,
            imports: tree.imports.as_slice(),
            entries,
        })
    }
}
