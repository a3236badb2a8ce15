//! What a module sees: its declarations and those of its import, by the names under which they are sought.

ghost use Rattle.std.specs.Prelude.{◌≡◌, [], false, ◌+◌, IfOk, OnOk, length, map, flat_map, slice_get};
ghost use Rattle.std.specs.Option.{option_map};
ghost use Rattle.evo_declarations.specs.Groups.{IsGrouped, numbers_of};
ghost use Rattle.evo_declarations.specs.Worlds.{world_of};
ghost use Rattle.evo_members.specs.Texts.{alias_of, base_of, declared_alias, declared_base, inherited_by, inherited_length, last_text};
ghost use Rattle.evo_members.specs.Views.{all_of, declared_of};
ghost use Rattle.evo_names.specs.Listed as names;

use crate::declared::{Declared, all_declared, declared_at};
use evo_base::Name;
use evo_declarations::{Groups, World, groups_of};
use evo_tree::{DeclKind, TypeName};
use std::alloc::{AllocError, Global};

/// The declarations of a module's import and its own, in one list, with the numbers that names have in it.
#[derive(Drop)]
pub struct Space<'a> {
    pub world: World<'a>,
    /// How many declarations there are.
    count: usize,
    aliases: Groups,
    bases: Groups,
    /// How many names are written behind types, protocols and extensions.
    inherited: usize,
    ghost counted: { count ≡ length (names.declarations (world_of world)) },
    ghost aliases_grouped: { IsGrouped (map alias_of (names.declarations (world_of world))) aliases },
    ghost bases_grouped: { IsGrouped (map base_of (names.declarations (world_of world))) bases },
    ghost inherited_counted: { inherited ≡ inherited_length (world_of world) },
}

/// The name of what stands for a type within another.
fn alias_text_of<'a>(declared: Declared<'a>) -> &'a [u8]
    ensures { result.now ≡ declared_alias declared.entry }
{
    match &declared.listed.decl.kind {
        DeclKind::TypeAlias(name, _) => name.text.as_slice(),
        DeclKind::AssociatedType(name, _, _) => name.text.as_slice(),
        _ => &[],
    }
}

fn last_of<'a>(names: &'a [Name]) -> &'a [u8]
    ensures { result.now ≡ last_text names.now }
{
    match names {
        [name] => name.as_slice(),
        [_, name] => name.as_slice(),
        _ => &[],
    }
}

/// The name of a type or protocol, or the last one of what an extension extends.
fn base_text_of<'a>(declared: Declared<'a>) -> &'a [u8]
    ensures { result.now ≡ declared_base declared.entry }
{
    match &declared.listed.decl.kind {
        DeclKind::Nominal(_, name, _, _) => name.text.as_slice(),
        DeclKind::Extension(extended, _, _) => last_of(extended.names.as_slice()),
        _ => &[],
    }
}

fn alias_texts<'a>(
    alloc: Global,
    declarations: &[Declared<'a>],
) -> Result<Vec<&'a [u8]>, AllocError>
    ensures { IfOk result (λ texts. map (λ t. t.now) texts.items ≡ map declared_alias declarations.now) }
{
    let mut texts = Vec::new(alloc);
    for declared in declarations {
        texts.push(alias_text_of(*declared))?;
    }
    Ok(texts)
}

fn base_texts<'a>(alloc: Global, declarations: &[Declared<'a>]) -> Result<Vec<&'a [u8]>, AllocError>
    ensures { IfOk result (λ texts. map (λ t. t.now) texts.items ≡ map declared_base declarations.now) }
{
    let mut texts = Vec::new(alloc);
    for declared in declarations {
        texts.push(base_text_of(*declared))?;
    }
    Ok(texts)
}

/// What is written behind a type, a protocol or an extension.
pub(crate) fn inherit_list<'a>(declared: Declared<'a>) -> &'a [TypeName]
    ensures { result.now ≡ inherited_by declared.entry }
{
    match &declared.listed.decl.kind {
        DeclKind::Nominal(_, _, inherited, _) => inherited.as_slice(),
        DeclKind::Extension(_, inherited, _) => inherited.as_slice(),
        _ => &[],
    }
}

fn push_names<'a>(found: &mut Vec<&'a TypeName>, names: &'a [TypeName]) -> Result<(), AllocError>
    ensures { OnOk result (length found.new.items ≡ length found.old.items + length names.now) }
{
    for name in names {
        found.push(name)?;
    }
    Ok(())
}

fn inherited_names<'a>(
    alloc: Global,
    declarations: &[Declared<'a>],
) -> Result<Vec<&'a TypeName>, AllocError>
    ensures { IfOk result (λ found. length found.items ≡ length (flat_map inherited_by declarations.now)) }
{
    let mut found = Vec::new(alloc);
    for declared in declarations {
        push_names(&mut found, inherit_list(*declared))?;
    }
    Ok(found)
}

/// The texts of all declarations, grouped.
fn grouped_aliases<'a>(
    alloc: Global,
    world: World<'a>,
    declarations: &[Declared<'a>],
) -> Result<Groups, AllocError>
    requires { all_of world declarations.now ≡ names.declarations (world_of world) }
    ensures { IfOk result (λ g. IsGrouped (map alias_of (names.declarations (world_of world.entry))) g) }
{
    let texts = alias_texts(alloc, declarations)?;
    let groups = groups_of(alloc, texts.as_slice())?;
    Ok(groups)
}

fn grouped_bases<'a>(
    alloc: Global,
    world: World<'a>,
    declarations: &[Declared<'a>],
) -> Result<Groups, AllocError>
    requires { all_of world declarations.now ≡ names.declarations (world_of world) }
    ensures { IfOk result (λ g. IsGrouped (map base_of (names.declarations (world_of world.entry))) g) }
{
    let texts = base_texts(alloc, declarations)?;
    let groups = groups_of(alloc, texts.as_slice())?;
    Ok(groups)
}

fn inherited_count<'a>(
    alloc: Global,
    world: World<'a>,
    declarations: &[Declared<'a>],
) -> Result<usize, AllocError>
    requires { all_of world declarations.now ≡ names.declarations (world_of world) }
    ensures { IfOk result (λ n. n ≡ inherited_length (world_of world.entry)) }
{
    let found = inherited_names(alloc, declarations)?;
    Ok(found.as_slice().len())
}

fn count_of<'a>(world: World<'a>, declarations: &[Declared<'a>]) -> usize
    requires { all_of world declarations.now ≡ names.declarations (world_of world) }
    ensures { result ≡ length (names.declarations (world_of world.entry)) }
{
    declarations.len()
}

impl<'a> Space<'a> {
    /// The list of what a module sees.
    pub fn of(alloc: Global, world: World<'a>) -> Result<Space<'a>, AllocError>
        ensures { IfOk result (λ s. s.world ≡ world.entry) }
    {
        let found = all_declared(alloc, world)?;
        let declarations = found.as_slice();
        let count = count_of(world, declarations);
        let aliases = grouped_aliases(alloc, world, declarations)?;
        let bases = grouped_bases(alloc, world, declarations)?;
        let inherited = inherited_count(alloc, world, declarations)?;
        Ok(Space {
            world,
            count,
            aliases,
            bases,
            inherited,
        })
    }

    /// The declaration of a number.
    pub fn at(&self, number: usize) -> Option<Declared<'a>>
        ensures { option_map (declared_of self.now.world) result ≡ slice_get (names.declarations (world_of self.now.world)) number }
    {
        declared_at(self.world, number)
    }

    /// How many declarations there are.
    pub fn count(&self) -> usize
        ensures { result ≡ length (names.declarations (world_of self.now.world)) }
    {
        self.count
    }

    /// How many names are written behind types, protocols and extensions.
    pub(crate) fn inherited_count(&self) -> usize
        ensures { result ≡ inherited_length (world_of self.now.world) }
    {
        self.inherited
    }

    /// The numbers of the `typealias`es and associated types of this name, ascending.
    pub(crate) fn aliases_named(&self, name: &[u8]) -> &[usize]
        ensures { result.now ≡ numbers_of name.now (map alias_of (names.declarations (world_of self.now.world))) }
    {
        self.aliases.having(name)
    }

    /// Whether there is a `typealias` or an associated type of this name at all.
    pub fn has_alias(&self, name: &[u8]) -> bool
        ensures { result ≡ false → numbers_of name.now (map alias_of (names.declarations (world_of self.now.world))) ≡ [] }
    {
        match self.aliases_named(name) {
            [] => false,
            _ => true,
        }
    }

    /// The numbers of the types and protocols of this name, and of extensions of such, ascending.
    pub(crate) fn bases_named(&self, name: &[u8]) -> &[usize]
        ensures { result.now ≡ numbers_of name.now (map base_of (names.declarations (world_of self.now.world))) }
    {
        self.bases.having(name)
    }
}
