//! The `typealias`es that are met, each told once.

ghost use Rattle.std.specs.Prelude.{◌≡◌, OnOk};
ghost use Rattle.std.specs.Option.{option_copied, option_map};
ghost use Rattle.evo_declarations.specs.Worlds.{world_of};
ghost use Rattle.evo_names.specs.Written as written;
ghost use Rattle.evo_type_names.specs.Aliases.{alias_at, alias_in, alias_key, alias_name, alias_keys, same_context};
ghost use Rattle.evo_declarations.specs.Views.{entry_view, within_of};
ghost use Rattle.evo_names.specs.Keys.{context_of};

use evo_base::Name;
use evo_declarations::{Within, World};
use evo_meeting::{Context, context_of};
use evo_members::{Declared, Space};
use evo_tree::{DeclKind, Identifier};
use std::alloc::AllocError;

/// A `typealias` by its module, what it stands in, and its name.
#[derive(Clone, Copy)]
pub struct AliasId<'a> {
    pub module: &'a Name,
    pub context: Context<'a>,
    pub base: &'a Name,
}

fn alias_in<'a>(home: World<'a>, within: Within<'a>, name: &'a Name) -> Option<AliasId<'a>>
    ensures { option_map alias_key result ≡ option_map (alias_in (world_of home.entry) name.now) (context_of (world_of home.entry) (within_of within.entry)) }
{
    let own = home.own;
    match context_of(home, within) {
        Some(context) => Some(AliasId {
            module: own.listing.name,
            context,
            base: name,
        }),
        None => None,
    }
}

fn alias_name<'a>(declared: Declared<'a>) -> Option<&'a Identifier>
    ensures { option_copied result ≡ alias_name (entry_view declared.entry.listed).kind }
{
    match &declared.listed.decl.kind {
        DeclKind::TypeAlias(name, _) => Some(name),
        _ => None,
    }
}

/// The `typealias` of this number.
pub(crate) fn alias_of_number<'a>(space: &Space<'a>, number: usize) -> Option<AliasId<'a>>
    ensures { option_map alias_key result ≡ alias_at (world_of space.now.world) number }
{
    match space.at(number) {
        Some(declared) => match alias_name(declared) {
            Some(name) => alias_in(
                space.world.at(declared.home),
                declared.listed.within,
                &name.text,
            ),
            None => None,
        },
        None => None,
    }
}

fn is_same_context(first: Context<'_>, second: Context<'_>) -> bool
    ensures { result ≡ same_context first.entry second.entry }
{
    match (first, second) {
        (Context::Module(one), Context::Module(other)) => one.as_slice() == other.as_slice(),
        (Context::Type(one), Context::Type(other)) => {
            one.module == other.module && one.base == other.base
        }
        _ => false,
    }
}

fn is_same(first: AliasId<'_>, second: AliasId<'_>) -> bool
    ensures { result ≡ written.same_alias (alias_key first.entry) (alias_key second.entry) }
{
    first.module.as_slice() == second.module.as_slice()
        && is_same_context(first.context, second.context)
        && first.base.as_slice() == second.base.as_slice()
}

fn is_met(alias: AliasId<'_>, aliases: &[AliasId<'_>]) -> bool
    ensures { result ≡ written.is_met (alias_key alias.entry) (alias_keys aliases.now) }
{
    for other in aliases {
        if is_same(alias, *other) {
            return true;
        }
    }
    false
}

/// Puts it behind these, where it is none of them.
pub(crate) fn add<'a>(aliases: &mut Vec<AliasId<'a>>, alias: AliasId<'a>) -> Result<(), AllocError>
    ensures { OnOk result (alias_keys aliases.new.items ≡ written.add_met (alias_keys aliases.old.items) (alias_key alias.entry)) }
{
    if is_met(alias, aliases.as_slice()) {
        return Ok(());
    }
    aliases.push(alias)?;
    Ok(())
}

/// Puts each of the others that is not among them behind these.
pub(crate) fn join<'a>(
    aliases: &mut Vec<AliasId<'a>>,
    others: &[AliasId<'a>],
) -> Result<(), AllocError>
    ensures { OnOk result (alias_keys aliases.new.items ≡ written.joined (alias_keys aliases.old.items) (alias_keys others.now)) }
{
    for alias in others {
        add(aliases, *alias)?;
    }
    Ok(())
}
