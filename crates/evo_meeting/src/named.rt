//! What a declaration is called, and what it is.

ghost use Rattle.std.specs.Prelude.{◌≡◌, IfOk, Some, map};
ghost use Rattle.std.specs.Option.{option_copied, option_map};
ghost use Rattle.evo_declarations.specs.Views.{entry_view, within_of};
ghost use Rattle.evo_meeting.specs.WrittenNames.{name_view};
ghost use Rattle.evo_names.specs.Listed as names;

use evo_base::Place;
use evo_declarations::{Listed, Within, has_modifier};
use evo_names::Sort;
use evo_tree::{
    DeclKind, Header, Identifier, ModifierKind, NominalKind, Parameter, ParameterLabel,
};
use std::alloc::{AllocError, Global};

/// A name, and where it is written.
#[derive(Clone, Copy)]
pub struct WrittenName<'a> {
    pub place: Place,
    pub text: &'a [u8],
}

fn written<'a>(name: &'a Identifier) -> Option<WrittenName<'a>>
    ensures { name_view result ≡ Some (name.now.place, name.now.text) }
{
    Some(WrittenName {
        place: name.place,
        text: name.text.as_slice(),
    })
}

/// The name of a declaration. An initialiser has the place of its word, and an extension has no name.
pub fn name_of<'a>(listed: &Listed<'a>) -> Option<WrittenName<'a>>
    ensures { name_view result ≡ names.name_of (entry_view listed.now) }
{
    match &listed.decl.kind {
        DeclKind::Function(name, _, _) => written(name),
        DeclKind::Initialiser(_, _) => Some(WrittenName {
            place: listed.decl.place,
            text: b"init".as_slice(),
        }),
        DeclKind::Property(_, name, _, _) => written(name),
        DeclKind::TypeAlias(name, _) => written(name),
        DeclKind::AssociatedType(name, _, _) => written(name),
        DeclKind::Case(name, _) => written(name),
        DeclKind::Nominal(_, name, _, _) => written(name),
        DeclKind::Extension(_, _, _) => None,
    }
}

pub(crate) fn label_of<'a>(parameter: &'a Parameter) -> &'a [u8]
    ensures { result.now ≡ names.label_of parameter.now }
{
    match &parameter.label {
        ParameterLabel::Same => parameter.name.text.as_slice(),
        ParameterLabel::Blank => b"_".as_slice(),
        ParameterLabel::Written(label) => label.text.as_slice(),
    }
}

fn labels<'a>(alloc: Global, parameters: &'a [Parameter]) -> Result<Vec<&'a [u8]>, AllocError>
    ensures { IfOk result (λ found. map (λ t. t.now) found.items ≡ map names.label_of parameters.now) }
{
    let mut found = Vec::new(alloc);
    for parameter in parameters {
        found.push(label_of(parameter))?;
    }
    Ok(found)
}

/// The header of what is called.
pub fn header_of<'a>(listed: &Listed<'a>) -> Option<&'a Header>
    ensures { option_copied result ≡ names.header_of (entry_view listed.now).kind }
{
    match &listed.decl.kind {
        DeclKind::Function(_, header, _) => Some(header),
        DeclKind::Initialiser(header, _) => Some(header),
        _ => None,
    }
}

pub(crate) fn labels_of<'a>(
    alloc: Global,
    listed: &Listed<'a>,
) -> Result<Option<Vec<&'a [u8]>>, AllocError>
    ensures { IfOk result (λ o. option_map (λ found. map (λ t. t.now) found.items) o ≡ names.labels_of (entry_view listed.now).kind) }
{
    match header_of(listed) {
        Some(header) => Ok(Some(labels(alloc, header.parameters.as_slice())?)),
        None => Ok(None),
    }
}

pub(crate) fn sort_of(listed: &Listed<'_>) -> Sort
    ensures { result ≡ names.sort_of (entry_view listed.now).kind }
{
    match &listed.decl.kind {
        DeclKind::Function(_, _, _) => Sort::Function,
        DeclKind::Initialiser(_, _) => Sort::Initialiser,
        DeclKind::Property(_, _, _, _) => Sort::Property,
        DeclKind::TypeAlias(_, _) => Sort::Alias,
        DeclKind::AssociatedType(_, _, _) => Sort::Alias,
        DeclKind::Case(_, _) => Sort::Case,
        DeclKind::Nominal(_, _, _, _) => Sort::Type,
        DeclKind::Extension(_, _, _) => Sort::Type,
    }
}

pub(crate) fn is_requirement(within: Within<'_>, sort: Sort) -> bool
    ensures { result ≡ names.is_requirement (within_of within.entry) sort }
{
    match within {
        Within::Braces(NominalKind::Protocol, _) => {
            matches!(sort, Sort::Function | Sort::Property)
        }
        _ => false,
    }
}

pub(crate) fn in_extension(within: Within<'_>) -> bool
    ensures { result ≡ names.in_extension (within_of within.entry) }
{
    matches!(within, Within::Extension(_))
}

pub(crate) fn is_static(listed: &Listed<'_>) -> bool
    ensures { result ≡ names.is_static (entry_view listed.now) }
{
    has_modifier(ModifierKind::Static, listed.decl.modifiers.as_slice())
}

/// Whether it is a function that overrides another.
pub fn overrides(listed: &Listed<'_>) -> bool
    ensures { result ≡ names.overrides (entry_view listed.now) }
{
    matches!(sort_of(listed), Sort::Function)
        && has_modifier(ModifierKind::Override, listed.decl.modifiers.as_slice())
}
