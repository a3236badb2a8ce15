//! The limits of a module.

ghost use Rattle.std.specs.Prelude.{◌≡◌};
ghost use Rattle.evo_declarations.specs.Limits as spec;
ghost use Rattle.evo_declarations.specs.Views.{entry_view, listing_view};
ghost use Rattle.evo_names.specs.Faults as faults;
ghost use Rattle.evo_names.specs.Listed.{kind_of};

use crate::listed::{Listed, Listing};
use evo_base::Place;
use evo_tree::{Decl, DeclKind, Header, Payload};

const MOST_DECLARATIONS: usize = 4096;

const MOST_PARAMETERS: usize = 16;

const MOST_GENERIC_PARAMETERS: usize = 4;

const MOST_VALUES: usize = 16;

fn past_parameters(header: &Header) -> Option<Place>
    ensures { result ≡ spec.in_header header.now }
{
    if let Some(parameter) = header.parameters.as_slice().get(MOST_PARAMETERS) {
        return Some(parameter.place);
    }
    match header.generics.as_slice().get(MOST_GENERIC_PARAMETERS) {
        Some(generic) => Some(generic.name.place),
        None => None,
    }
}

fn place_of(payload: &Payload) -> Place
    ensures { result ≡ faults.payload_place payload.now }
{
    match &payload.label {
        Some(label) => label.place,
        None => payload.type_name.place,
    }
}

fn past_values(payloads: &[Payload]) -> Option<Place>
    ensures { result ≡ spec.in_payload payloads.now }
{
    match payloads.get(MOST_VALUES) {
        Some(payload) => Some(place_of(payload)),
        None => None,
    }
}

fn past_declaration(decl: &Decl) -> Option<Place>
    ensures { result ≡ spec.in_declaration (kind_of decl.now) }
{
    match &decl.kind {
        DeclKind::Function(_, header, _) => past_parameters(header),
        DeclKind::Initialiser(header, _) => past_parameters(header),
        DeclKind::Case(_, payloads) => past_values(payloads.as_slice()),
        _ => None,
    }
}

fn first_past(entries: &[Listed<'_>]) -> Option<Place>
    ensures { result ≡ spec.first_past entries.now }
{
    for listed in entries {
        if let Some(place) = past_declaration(listed.decl) {
            return Some(place);
        }
    }
    None
}

fn behind_most(entries: &[Listed<'_>]) -> Option<Place>
    ensures { result ≡ spec.behind_most entries.now }
{
    match entries.get(MOST_DECLARATIONS) {
        Some(listed) => Some(listed.decl.place),
        None => None,
    }
}

impl<'a> Listing<'a> {
    /// The place of an item past a limit; nothing exactly where there is none.
    pub fn past_limit(&self) -> Option<Place>
        ensures { result ≡ spec.past_limit (listing_view self.now) }
    {
        let entries = self.entries.as_slice();
        match behind_most(entries) {
            Some(place) => Some(place),
            None => first_past(entries),
        }
    }
}
