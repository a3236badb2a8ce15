//! A module's declarations, with its types and protocols by name.

ghost use Rattle.std.specs.Prelude.{◌≡◌, IfOk, map};
ghost use Rattle.evo_declarations.specs.Groups.{IsGrouped, numbers_of};
ghost use Rattle.evo_declarations.specs.Texts.{listed_type_text, type_text};
ghost use Rattle.evo_declarations.specs.Views.{entry_view, listing_view};

use crate::groups::{Groups, groups_of};
use crate::listed::{Listed, Listing};
use evo_tree::DeclKind;
use std::alloc::{AllocError, Global};

/// A module as the list of its declarations, with the numbers that each name of a type or protocol has there.
#[derive(Drop)]
pub struct Names<'a> {
    pub listing: Listing<'a>,
    types: Groups,
    ghost types_grouped: { IsGrouped (map listed_type_text listing.entries.items) types },
}

fn text_of_type<'a>(listed: Listed<'a>) -> &'a [u8]
    ensures { result.now ≡ type_text (entry_view listed.entry).kind }
{
    match &listed.decl.kind {
        DeclKind::Nominal(_, name, _, _) => name.text.as_slice(),
        _ => &[],
    }
}

fn texts_of_types<'a>(alloc: Global, entries: &[Listed<'a>]) -> Result<Vec<&'a [u8]>, AllocError>
    ensures { IfOk result (λ texts. map (λ t. t.now) texts.items ≡ map listed_type_text entries.now) }
{
    let mut texts = Vec::new(alloc);
    for listed in entries {
        texts.push(text_of_type(*listed))?;
    }
    Ok(texts)
}

impl<'a> Names<'a> {
    /// The declarations with an index of their types.
    pub fn of(alloc: Global, listing: Listing<'a>) -> Result<Names<'a>, AllocError>
        ensures { IfOk result (λ n. listing_view n.listing ≡ listing_view listing.entry) }
    {
        let texts = texts_of_types(alloc, listing.entries.as_slice())?;
        let types = groups_of(alloc, texts.as_slice())?;
        Ok(Names { listing, types })
    }

    /// The numbers of the types and protocols of this name, ascending; at the empty name of all that is none.
    pub fn types_named(&self, name: &[u8]) -> &[usize]
        ensures { result.now ≡ numbers_of name.now (map listed_type_text self.now.listing.entries.items) }
    {
        self.types.having(name)
    }
}
