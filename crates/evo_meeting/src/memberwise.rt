//! The initialiser that a struct has without writing it.

ghost use Rattle.std.specs.Prelude.{◌≡◌, ◌++◌, IfOk, OnOk, map};
ghost use Rattle.std.specs.Option.{option_map};
ghost use Rattle.evo_declarations.specs.Views.{entries_of, entry_view, listing_view};
ghost use Rattle.evo_meeting.specs.Unwritten as spec;
ghost use Rattle.evo_names.specs.Listed as names;

use crate::named::sort_of;
use evo_declarations::{Listed, Listing, Within};
use evo_names::Sort;
use evo_tree::{Accessors, DeclKind, Form};
use std::alloc::{AllocError, Global};

fn stands_in(name: &[u8], listed: &Listed<'_>) -> bool
    ensures { result ≡ names.stands_in_braces name.now (entry_view listed.now).within }
{
    match listed.within {
        Within::Braces(_, of) => of.as_slice() == name,
        _ => false,
    }
}

fn is_written(name: &[u8], listed: &Listed<'_>) -> bool
    ensures { result ≡ spec.is_written name.now (entry_view listed.now) }
{
    stands_in(name, listed) && matches!(sort_of(listed), Sort::Initialiser)
}

/// Whether an initialiser stands in the braces of this type.
fn any_written(name: &[u8], entries: &[Listed<'_>]) -> bool
    ensures { result ≡ spec.any_written name.now (entries_of entries.now) }
{
    for listed in entries {
        if is_written(name, listed) {
            return true;
        }
    }
    false
}

fn push_stored<'a>(
    found: &mut Vec<&'a [u8]>,
    name: &[u8],
    listed: &Listed<'a>,
) -> Result<(), AllocError>
    ensures { OnOk result (map (λ t. t.now) found.new.items ≡ map (λ t. t.now) found.old.items ++ spec.stored_at name.now (entry_view listed.now)) }
{
    if !stands_in(name, listed) {
        return Ok(());
    }
    match &listed.decl.kind {
        DeclKind::Property(_, own, _, Accessors::Stored) => {
            found.push(own.text.as_slice())?;
            Ok(())
        }
        _ => Ok(()),
    }
}

/// The stored properties in the braces of this type.
fn stored<'a>(
    alloc: Global,
    name: &[u8],
    entries: &[Listed<'a>],
) -> Result<Vec<&'a [u8]>, AllocError>
    ensures { IfOk result (λ found. map (λ t. t.now) found.items ≡ spec.stored name.now (entries_of entries.now)) }
{
    let mut found = Vec::new(alloc);
    for listed in entries {
        push_stored(&mut found, name, listed)?;
    }
    Ok(found)
}

fn has_none(listing: &Listing<'_>, name: &[u8]) -> bool
    ensures { result ≡ spec.has_none (listing_view listing.now) name.now }
{
    matches!(listing.form, Form::Interface) || any_written(name, listing.entries.as_slice())
}

/// Whether a struct of this name has those initialisers alone that are written: in an interface, or where its braces have
/// one.
pub fn writes_initialisers(listing: &Listing<'_>, name: &[u8]) -> bool
    ensures { result ≡ spec.has_none (listing_view listing.now) name.now }
{
    has_none(listing, name)
}

/// The labels of the initialiser that a struct of this name has where its braces have none.
pub(crate) fn memberwise_labels<'a>(
    alloc: Global,
    listing: &Listing<'a>,
    name: &[u8],
) -> Result<Option<Vec<&'a [u8]>>, AllocError>
    ensures { IfOk result (λ o. option_map (λ found. map (λ t. t.now) found.items) o ≡ names.memberwise_labels (listing_view listing.now) name.now) }
{
    if has_none(listing, name) {
        return Ok(None);
    }
    Ok(Some(stored(alloc, name, listing.entries.as_slice())?))
}
