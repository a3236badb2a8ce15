//! Declarations by their base names.

ghost use Rattle.std.specs.Prelude.{◌≡◌, IfOk, map};
ghost use Rattle.evo_declarations.specs.Groups.{IsGrouped};
ghost use Rattle.evo_declarations.specs.Worlds.{module_view, world_of};
ghost use Rattle.evo_keys.specs.Bases.{base_text, base_texts, world_with};
ghost use Rattle.evo_declarations.specs.Views.{entries_of, entry_view};

use evo_declarations::{Groups, Listed, Names, World, groups_of};
use evo_meeting::name_of;
use std::alloc::{AllocError, Global};

/// A module's declarations, and the numbers that each base name has among them.
#[derive(Clone, Copy)]
pub struct ByBase<'a> {
    pub names: &'a Names<'a>,
    pub bases: &'a Groups,
}

/// A module with the interface that it imports, each with its base names.
#[derive(Clone, Copy)]
pub struct Bases<'a> {
    pub own: ByBase<'a>,
    pub imported: Option<ByBase<'a>>,
}

fn base_of<'a>(listed: Listed<'a>) -> &'a [u8]
    ensures { result.now ≡ base_text (entry_view listed.entry) }
{
    match name_of(&listed) {
        Some(name) => name.text,
        None => &[],
    }
}

fn base_texts<'a>(alloc: Global, entries: &[Listed<'a>]) -> Result<Vec<&'a [u8]>, AllocError>
    ensures { IfOk result (λ texts. map (λ t. t.now) texts.items ≡ map base_text (entries_of entries.now)) }
{
    let mut texts = Vec::new(alloc);
    for listed in entries {
        texts.push(base_of(*listed))?;
    }
    Ok(texts)
}

/// The numbers that each base name has among a module's declarations.
pub fn groups_by_base(alloc: Global, names: &Names<'_>) -> Result<Groups, AllocError>
    ensures { IfOk result (λ groups. IsGrouped (base_texts (module_view names.now)) groups) }
{
    let texts = base_texts(alloc, names.listing.entries.as_slice())?;
    let groups = groups_of(alloc, texts.as_slice())?;
    Ok(groups)
}

impl<'a> Bases<'a> {
    /// The module and its import, without their base names.
    pub fn world(self) -> World<'a>
        ensures { world_of result ≡ world_with self.entry }
    {
        let own = self.own;
        match self.imported {
            Some(imported) => World {
                own: own.names,
                imported: Some(imported.names),
            },
            None => World {
                own: own.names,
                imported: None,
            },
        }
    }
}
