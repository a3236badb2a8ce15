//! Declarations with the module in which they stand.

ghost use Rattle.std.specs.Prelude.{◌≡◌, ◌++◌, IfOk, OnOk, map, slice_get};
ghost use Rattle.std.specs.Option.{option_map};
ghost use Rattle.evo_declarations.specs.Views.{entries_of};
ghost use Rattle.evo_declarations.specs.Worlds.{world_of};
ghost use Rattle.evo_declarations.specs.declared.world.Home.TheVariants as home;
ghost use Rattle.evo_members.specs.Views.{all_of, declared_of, in_home};
ghost use Rattle.evo_names.specs.Listed as names;

use evo_declarations::{Home, Listed, World};
use std::alloc::{AllocError, Global};

/// A declaration, and whether it stands in the module itself or in what that imports.
#[derive(Clone, Copy)]
pub struct Declared<'a> {
    pub home: Home,
    pub listed: Listed<'a>,
}

fn push_from<'a>(
    found: &mut Vec<Declared<'a>>,
    home: Home,
    entries: &[Listed<'a>],
) -> Result<(), AllocError>
    ensures { OnOk result (found.new.items ≡ found.old.items ++ map (in_home home) entries.now) }
{
    for listed in entries {
        found.push(Declared {
            home,
            listed: *listed,
        })?;
    }
    Ok(())
}

fn push_imported<'a>(found: &mut Vec<Declared<'a>>, world: World<'a>) -> Result<(), AllocError>
    ensures { OnOk result (all_of world.entry found.new.items ≡ all_of world.entry found.old.items ++ names.imported_declarations (world_of world.entry)) }
{
    match world.imported {
        Some(names) => {
            push_from(found, Home::Imported, names.listing.entries.as_slice())?;
            Ok(())
        }
        None => Ok(()),
    }
}

fn push_own<'a>(found: &mut Vec<Declared<'a>>, world: World<'a>) -> Result<(), AllocError>
    ensures { OnOk result (all_of world.entry found.new.items ≡ all_of world.entry found.old.items ++ names.own_declarations (world_of world.entry)) }
{
    let own = world.own;
    push_from(found, Home::Own, own.listing.entries.as_slice())?;
    Ok(())
}

/// Those of the import, and then the module's own.
#[tactic(auto, unfolding(evo_names::specs::Listed::declarations))]
pub(crate) fn all_declared<'a>(
    alloc: Global,
    world: World<'a>,
) -> Result<Vec<Declared<'a>>, AllocError>
    ensures { IfOk result (λ found. all_of world.entry found.items ≡ names.declarations (world_of world.entry)) }
{
    let mut found = Vec::new(alloc);
    push_imported(&mut found, world)?;
    push_own(&mut found, world)?;
    Ok(found)
}

fn from_home<'a>(home: Home, entries: &[Listed<'a>], number: usize) -> Option<Declared<'a>>
    ensures { result ≡ option_map (in_home home) (slice_get entries.now number) }
{
    match entries.get(number) {
        Some(listed) => Some(Declared {
            home,
            listed: *listed,
        }),
        None => None,
    }
}

fn own_at<'a>(world: World<'a>, number: usize) -> Option<Declared<'a>>
    ensures { option_map (declared_of world.entry) result ≡ slice_get (names.own_declarations (world_of world.entry)) number }
{
    let own = world.own;
    from_home(Home::Own, own.listing.entries.as_slice(), number)
}

fn at_either<'a>(world: World<'a>, entries: &[Listed<'a>], number: usize) -> Option<Declared<'a>>
    requires { names.imported_declarations (world_of world) ≡ all_of world (map (in_home home.Imported) entries.now) }
    ensures { option_map (declared_of world.entry) result ≡ slice_get (names.declarations (world_of world.entry)) number }
{
    if number < entries.len() {
        from_home(Home::Imported, entries, number)
    } else {
        own_at(world, number - entries.len())
    }
}

/// The declaration of a number: those of the import come first.
pub(crate) fn declared_at<'a>(world: World<'a>, number: usize) -> Option<Declared<'a>>
    ensures { option_map (declared_of world.entry) result ≡ slice_get (names.declarations (world_of world.entry)) number }
{
    match world.imported {
        Some(names) => at_either(world, names.listing.entries.as_slice(), number),
        None => own_at(world, number),
    }
}
