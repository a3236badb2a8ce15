//! Walks along the names of written types.

ghost use Rattle.std.specs.Prelude.{◌≡◌, [], IfOk, OnOk};
ghost use Rattle.std.specs.Option.{option_copied, option_map};
ghost use Rattle.evo_declarations.specs.Views.{entry_view, view_of};
ghost use Rattle.evo_declarations.specs.Worlds.{world_of};
ghost use Rattle.evo_members.specs.Located.{start_of};
ghost use Rattle.evo_names.specs.Listed.{list_of};
ghost use Rattle.evo_names.specs.Written.{fixed, via, written_in};
ghost use Rattle.evo_type_names.specs.Aliases.{alias_key, alias_keys, written_by};
ghost use Rattle.evo_type_names.specs.Known.{AllKnown, IsEntered, IsOutcome, IsStepped, IsTaken, IsTried, IsWalked, goes_on, met_by, texts_of, type_of, type_view};
ghost use Rattle.evo_resolved.specs.declared.resolved_type.RType.TheVariants as ty;
ghost use Rattle.evo_declarations.specs.Worlds.{home_of};
ghost use Rattle.evo_members.specs.Located.{around_of};
ghost use Rattle.evo_type_names.specs.Starts.{scope_of, start_view};

use crate::aliases::{AliasId, alias_of_number, join};
use crate::beginning::{Begun, begin};
use crate::known::{Known, known_at};
use crate::meaning::{Meaning, TypeHead};
use crate::round::type_member;
use crate::scope::Scope;
use crate::start::Start;
use evo_base::Name;
use evo_declarations::{Home, Viewpoint};
use evo_members::{Around, Declared, Located, Space};
use evo_tree::{DeclKind, TypeName};
use std::alloc::{AllocError, Global};

/// What comes of a start, or of a name behind a type.
#[derive(Clone, Copy)]
pub enum Entered<'a> {
    /// It goes on with a type.
    On,
    Nothing,
    /// What is written there has to be known first.
    Wants(Located<'a>),
}

/// What comes of a written type.
#[derive(Drop)]
pub enum Outcome<'a> {
    Means(Meaning<'a>),
    Nothing,
    /// What is written there has to be known first.
    Wants(Located<'a>),
}

fn goes_on(entered: Entered<'_>) -> bool
    ensures { result ≡ goes_on entered.entry }
{
    matches!(entered, Entered::On)
}

fn replace<'a>(path: &mut Vec<&'a Name>, names: &[&'a Name]) -> Result<(), AllocError>
    ensures { OnOk result (path.new.items ≡ names.now) }
{
    path.clear();
    for name in names {
        path.push(*name)?;
    }
    Ok(())
}

fn take<'a>(
    aliases: &mut Vec<AliasId<'a>>,
    head: &mut TypeHead<'a>,
    path: &mut Vec<&'a Name>,
    found: &Option<Meaning<'a>>,
) -> Result<Entered<'a>, AllocError>
    ensures { IfOk result (λ e. IsTaken found.now e (alias_keys aliases.old.items) (alias_keys aliases.new.items) (type_view head.new (texts_of path.new.items))) }
{
    match found {
        Some(meaning) => {
            join(aliases, meaning.aliases.as_slice())?;
            replace(path, meaning.path.as_slice())?;
            *head = meaning.head;
            Ok(Entered::On)
        }
        None => Ok(Entered::Nothing),
    }
}

fn enter_written<'a>(
    space: &Space<'a>,
    known: &[Known<'a>],
    aliases: &mut Vec<AliasId<'a>>,
    head: &mut TypeHead<'a>,
    path: &mut Vec<&'a Name>,
    located: Located<'a>,
) -> Result<Entered<'a>, AllocError>
    requires { AllKnown (world_of space.now.world) known.now }
    ensures { IfOk result (λ e. IsEntered (world_of space.now.world) (start_of (world_of space.now.world) located.entry) e (alias_keys aliases.old.items) (alias_keys aliases.new.items) (type_view head.new (texts_of path.new.items))) }
{
    match known_at(known, located) {
        Some(one) => {
            let entered = take(aliases, head, path, &one.found)?;
            Ok(entered)
        }
        None => Ok(Entered::Wants(located)),
    }
}

fn enter<'a>(
    space: &Space<'a>,
    known: &[Known<'a>],
    aliases: &mut Vec<AliasId<'a>>,
    head: &mut TypeHead<'a>,
    path: &mut Vec<&'a Name>,
    start: Start<'a>,
) -> Result<Entered<'a>, AllocError>
    requires { AllKnown (world_of space.now.world) known.now }
    ensures { IfOk result (λ e. IsEntered (world_of space.now.world) (start_view (world_of space.now.world) start.entry) e (alias_keys aliases.old.items) (alias_keys aliases.new.items) (type_view head.new (texts_of path.new.items))) }
{
    match start {
        Start::Named(key) => {
            *head = TypeHead::Named(key);
            Ok(Entered::On)
        }
        Start::Parameter(number) => {
            *head = TypeHead::Parameter(number);
            path.clear();
            Ok(Entered::On)
        }
        Start::Member(number, name) => {
            *head = TypeHead::Parameter(number);
            path.clear();
            path.push(name)?;
            Ok(Entered::On)
        }
        Start::Written(located) => {
            let entered = enter_written(space, known, aliases, head, path, located)?;
            Ok(entered)
        }
    }
}

/// What stands behind the type by a name.
fn step<'a>(
    alloc: Global,
    space: &Space<'a>,
    known: &[Known<'a>],
    view: Viewpoint<'a>,
    aliases: &mut Vec<AliasId<'a>>,
    head: &mut TypeHead<'a>,
    path: &mut Vec<&'a Name>,
    name: &'a Name,
) -> Result<Entered<'a>, AllocError>
    requires { AllKnown (world_of space.now.world) known.now }
    ensures { IfOk result (λ e. IsStepped (world_of space.now.world) (view_of view.entry) (type_view head.old (texts_of path.old.items)) name.now e (alias_keys aliases.old.items) (alias_keys aliases.new.items) (type_view head.new (texts_of path.new.items))) }
{
    match *head {
        TypeHead::Named(key) => match type_member(alloc, space, view, key, name.as_slice())? {
            Some(located) => {
                let entered = enter_written(space, known, aliases, head, path, located)?;
                Ok(entered)
            }
            None => Ok(Entered::Nothing),
        },
        TypeHead::Parameter(_) => {
            path.push(name)?;
            Ok(Entered::On)
        }
        TypeHead::NoValue => Ok(Entered::Nothing),
    }
}

fn walk_on<'a>(
    alloc: Global,
    space: &Space<'a>,
    known: &[Known<'a>],
    view: Viewpoint<'a>,
    aliases: &mut Vec<AliasId<'a>>,
    head: &mut TypeHead<'a>,
    path: &mut Vec<&'a Name>,
    names: &'a [Name],
) -> Result<Entered<'a>, AllocError>
    requires { AllKnown (world_of space.now.world) known.now }
    ensures { IfOk result (λ e. IsWalked (world_of space.now.world) (view_of view.entry) (fixed (type_view head.old (texts_of path.old.items))) names.now e (alias_keys aliases.old.items) (alias_keys aliases.new.items) (type_view head.new (texts_of path.new.items))) }
{
    for name in names {
        let entered = step(alloc, space, known, view, aliases, head, path, name)?;
        if !goes_on(entered) {
            return Ok(entered);
        }
    }
    Ok(Entered::On)
}

/// From a start along names.
fn walk<'a>(
    alloc: Global,
    space: &Space<'a>,
    known: &[Known<'a>],
    view: Viewpoint<'a>,
    aliases: &mut Vec<AliasId<'a>>,
    head: &mut TypeHead<'a>,
    path: &mut Vec<&'a Name>,
    begun: Begun<'a>,
) -> Result<Entered<'a>, AllocError>
    requires { AllKnown (world_of space.now.world) known.now }
    ensures { IfOk result (λ e. IsWalked (world_of space.now.world) (view_of view.entry) (start_view (world_of space.now.world) begun.entry.start) begun.entry.rest.now e (alias_keys aliases.old.items) (alias_keys aliases.new.items) (type_view head.new (texts_of path.new.items))) }
{
    let begins = enter(space, known, aliases, head, path, begun.start)?;
    if !goes_on(begins) {
        return Ok(begins);
    }
    let entered = walk_on(alloc, space, known, view, aliases, head, path, begun.rest)?;
    Ok(entered)
}

fn seed<'a>(alloc: Global, alias: Option<AliasId<'a>>) -> Result<Vec<AliasId<'a>>, AllocError>
    ensures { IfOk result (λ found. alias_keys found.items ≡ list_of (option_map alias_key alias.entry)) }
{
    let mut found = Vec::new(alloc);
    match alias {
        Some(alias) => {
            found.push(alias)?;
            Ok(found)
        }
        None => Ok(found),
    }
}

fn tried_from<'a>(
    alloc: Global,
    space: &Space<'a>,
    known: &[Known<'a>],
    alias: Option<AliasId<'a>>,
    view: Viewpoint<'a>,
    begun: Begun<'a>,
) -> Result<Outcome<'a>, AllocError>
    requires { AllKnown (world_of space.now.world) known.now }
    ensures { IfOk result (λ o. IsOutcome (world_of space.now.world) (view_of view.entry) (start_view (world_of space.now.world) begun.entry.start) begun.entry.rest.now (list_of (option_map alias_key alias.entry)) o) }
{
    let mut aliases = seed(alloc, alias)?;
    let mut head = TypeHead::NoValue;
    let mut path = Vec::new(alloc);
    match walk(
        alloc,
        space,
        known,
        view,
        &mut aliases,
        &mut head,
        &mut path,
        begun,
    )? {
        Entered::On => Ok(Outcome::Means(Meaning {
            aliases,
            head,
            path,
        })),
        Entered::Nothing => Ok(Outcome::Nothing),
        Entered::Wants(located) => Ok(Outcome::Wants(located)),
    }
}

/// What comes of names in a scope; a `typealias` in which they stand is told first.
pub(crate) fn tried<'a>(
    alloc: Global,
    space: &Space<'a>,
    known: &[Known<'a>],
    alias: Option<AliasId<'a>>,
    scope: Scope<'a>,
    names: &'a [Name],
) -> Result<Outcome<'a>, AllocError>
    requires { AllKnown (world_of space.now.world) known.now }
    ensures { IfOk result (λ o. IsTried (world_of space.now.world) (via (option_map alias_key alias.entry) (scope_of space.now.world scope.entry) names.now) o) }
{
    match begin(alloc, space, scope, names)? {
        Some(begun) => {
            let view = scope.view(space.world);
            let outcome = tried_from(alloc, space, known, alias, view, begun)?;
            Ok(outcome)
        }
        None => Ok(Outcome::Nothing),
    }
}

fn tried_written<'a>(
    alloc: Global,
    space: &Space<'a>,
    known: &[Known<'a>],
    alias: Option<AliasId<'a>>,
    home: Home,
    around: Around<'a>,
    written: &'a TypeName,
) -> Result<Outcome<'a>, AllocError>
    requires { AllKnown (world_of space.now.world) known.now }
    ensures { IfOk result (λ o. IsTried (world_of space.now.world) (written_in (home_of space.now.world home) (around_of around.entry) (option_map alias_key alias.entry) written.now) o) }
{
    let scope = Scope {
        home,
        around,
        generics: &[],
    };
    let outcome = tried(alloc, space, known, alias, scope, written.names.as_slice())?;
    Ok(outcome)
}

/// What comes of what is written in a place.
pub(crate) fn tried_place<'a>(
    alloc: Global,
    space: &Space<'a>,
    known: &[Known<'a>],
    located: Located<'a>,
) -> Result<Outcome<'a>, AllocError>
    requires { AllKnown (world_of space.now.world) known.now }
    ensures { IfOk result (λ o. IsTried (world_of space.now.world) (start_of (world_of space.now.world) located.entry) o) }
{
    match space.at(located.number) {
        Some(declared) => match written_type(declared) {
            Some(written) => {
                let alias = alias_of_number(space, located.number);
                let outcome = tried_written(
                    alloc,
                    space,
                    known,
                    alias,
                    declared.home,
                    located.around,
                    written,
                )?;
                Ok(outcome)
            }
            None => Ok(Outcome::Means(no_value(alloc))),
        },
        None => Ok(Outcome::Means(no_value(alloc))),
    }
}

/// The type that a `typealias` or a default has written.
fn written_type<'a>(declared: Declared<'a>) -> Option<&'a TypeName>
    ensures { option_copied result ≡ written_by (entry_view declared.entry.listed).kind }
{
    match &declared.listed.decl.kind {
        DeclKind::TypeAlias(_, written) => Some(written),
        DeclKind::AssociatedType(_, _, written) => written.as_ref(),
        _ => None,
    }
}

fn no_value<'a>(alloc: Global) -> Meaning<'a>
    ensures { (met_by result ≡ []) × (type_of result ≡ ty.NoValue) }
{
    Meaning {
        aliases: Vec::new(alloc),
        head: TypeHead::NoValue,
        path: Vec::new(alloc),
    }
}
