//! The functions that overrides mean.

ghost use Rattle.std.specs.Prelude.{◌≡◌, ◌<◌, ◌^◌, ◌-◌, length, map};
ghost use Rattle.std.specs.Option.{option_map};
ghost use Rattle.evo_declarations.specs.Groups.{IsGrouped};
ghost use Rattle.evo_declarations.specs.Views.{entry_view, key_of_type, view_of, within_of};
ghost use Rattle.evo_declarations.specs.Worlds.{module_view, world_of};
ghost use Rattle.evo_keys.specs.Bases.{AreBases, base_texts, world_with};
ghost use Rattle.evo_keys.specs.Members.{found_member, member_view};
ghost use Rattle.evo_keys.specs.Roots as spec;
ghost use Rattle.evo_keys.specs.Types.{in_both};
ghost use Rattle.evo_names.specs.Heads as heads;
ghost use Rattle.evo_names.specs.Keys as keys;
ghost use Rattle.evo_names.specs.Listed as names;
ghost use Rattle.evo_names.specs.Meets as meets;
ghost use Rattle.evo_names.specs.Resolved.{declared_in};

use crate::bases::Bases;
use crate::classes::superclass;
use crate::members::{Member, is_member_of, sees};
use evo_declarations::{Groups, Listed, Names, TypeId, Viewpoint, Within, World, alone, owner_of};
use evo_meeting::{name_of, overrides};
use evo_tree::{DeclKind, Parameter, ParameterLabel};

/// What a function that overrides seeks: one of its base name and its labels, seen from where it stands.
#[derive(Clone, Copy)]
pub(crate) struct Sought<'a> {
    pub view: Viewpoint<'a>,
    pub base: &'a [u8],
    pub function: Listed<'a>,
}

fn label_of(parameter: &Parameter) -> &[u8]
    ensures { result.now ≡ names.label_of parameter.now }
{
    match &parameter.label {
        ParameterLabel::Same => parameter.name.text.as_slice(),
        ParameterLabel::Blank => b"_".as_slice(),
        ParameterLabel::Written(label) => label.text.as_slice(),
    }
}

fn same_parameters(a: &[Parameter], b: &[Parameter]) -> bool
    ensures { result ≡ meets.same_names (map names.label_of a.now) (map names.label_of b.now) }
{
    match a {
        [] => b.is_empty(),
        [first, rest @ ..] => match b {
            [] => false,
            [other, others @ ..] => {
                label_of(first) == label_of(other) && same_parameters(rest, others)
            }
        },
    }
}

fn parameters_of<'a>(listed: &Listed<'a>) -> Option<&'a [Parameter]>
    ensures { option_map (λ ps. map names.label_of ps.now) result ≡ names.labels_of (entry_view listed.now).kind }
{
    match &listed.decl.kind {
        DeclKind::Function(_, header, _) => Some(header.parameters.as_slice()),
        DeclKind::Initialiser(header, _) => Some(header.parameters.as_slice()),
        _ => None,
    }
}

fn same_labels(a: &Listed<'_>, b: &Listed<'_>) -> bool
    ensures { result ≡ meets.same_labels (names.labels_of (entry_view a.now).kind) (names.labels_of (entry_view b.now).kind) }
{
    match (parameters_of(a), parameters_of(b)) {
        (None, None) => true,
        (Some(first), Some(second)) => same_parameters(first, second),
        _ => false,
    }
}

fn has_name(base: &[u8], listed: &Listed<'_>) -> bool
    ensures { result ≡ names.has_name base.now (entry_view listed.now) }
{
    match name_of(listed) {
        Some(name) => name.text == base,
        None => false,
    }
}

fn is_function(listed: &Listed<'_>) -> bool
    ensures { result ≡ names.is_function (names.sort_of (entry_view listed.now).kind) }
{
    matches!(&listed.decl.kind, DeclKind::Function(_, _, _))
}

fn in_braces(within: Within<'_>) -> bool
    ensures { result ≡ heads.in_braces (within_of within.entry) }
{
    matches!(within, Within::Braces(_, _))
}

fn fits(sought: Sought<'_>, member: Member<'_>) -> bool
    ensures { result ≡ spec.fits sought.entry (member_view member.entry) }
{
    let listed = member.listed;
    in_braces(listed.within)
        && is_function(&listed)
        && has_name(sought.base, &listed)
        && same_labels(&listed, &sought.function)
        && !overrides(&listed)
        && sees(sought.view, member)
}

fn root_at<'a>(
    sought: Sought<'_>,
    id: TypeId<'_>,
    world: World<'a>,
    number: usize,
) -> Option<Member<'a>>
    ensures { found_member result ≡ spec.root_at_number sought.entry (key_of_type id.entry) (world_of world.entry) number }
{
    let own = world.own;
    let listed = own.listing.entries.get(number)?;
    let member = Member {
        world,
        listed: *listed,
    };
    if fits(sought, member) && is_member_of(id, member) {
        Some(member)
    } else {
        None
    }
}

/// The first one that a class has in a module.
fn root_in<'a>(
    sought: Sought<'_>,
    id: TypeId<'_>,
    world: World<'a>,
    bases: &Groups,
) -> Option<Member<'a>>
    requires { IsGrouped (base_texts (world_of world).own) bases.now }
    ensures { found_member result ≡ spec.first_root sought.entry (key_of_type id.entry) (world_of world.entry) }
{
    let numbers = bases.having(sought.base);
    for &number in numbers {
        if let Some(found) = root_at(sought, id, world, number) {
            return Some(found);
        }
    }
    None
}

fn root_in_both<'a>(sought: Sought<'_>, id: TypeId<'_>, bases: Bases<'a>) -> Option<Member<'a>>
    requires { AreBases bases }
    ensures { found_member result ≡ in_both (spec.first_root sought.entry (key_of_type id.entry)) (world_with bases.entry) }
{
    if let Some(table) = bases.imported {
        if let Some(found) = root_in(sought, id, alone(table.names), table.bases) {
            return Some(found);
        }
    }
    let own = bases.own;
    root_in(sought, id, bases.world(), own.bases)
}

/// The one that a class has.
fn root_of_class<'a>(sought: Sought<'_>, id: TypeId<'_>, bases: Bases<'a>) -> Option<Member<'a>>
    requires { AreBases bases }
    ensures { found_member result ≡ spec.root_of_class sought.entry (world_with bases.entry) (key_of_type id.entry) }
{
    root_in_both(sought, id, bases)
}

fn count(names: &Names<'_>) -> usize
    ensures all { result ≡ length (module_view names.now).entries }
    ensures fits { result < 2 ^ 63 }
{
    names.listing.entries.as_slice().len()
}

/// How many declarations there are, and one more: no way upwards without a circle is longer.
fn longest_way(bases: Bases<'_>) -> usize
    ensures { result ≡ spec.longest_way (world_with bases.entry) }
{
    let own = bases.own;
    let declared = count(own.names);
    match bases.imported {
        Some(table) => declared + 1 + count(table.names),
        None => declared + 1,
    }
}

/// The nearest one from a class upwards, among at most so many classes.
fn nearest_root<'a>(
    sought: Sought<'a>,
    above: TypeId<'a>,
    bases: Bases<'a>,
    most: usize,
) -> Option<Member<'a>>
    requires { AreBases bases }
    ensures { found_member result ≡ spec.root_of_classes sought.entry (world_with bases.entry) (heads.climb most (world_with bases.entry) (key_of_type above.entry)) }
{
    let mut class = above;
    for _step in 0..most {
        if let Some(found) = root_of_class(sought, class, bases) {
            return Some(found);
        }
        let Some(next) = superclass(bases.world(), class) else {
            return None;
        };
        class = next;
    }
    None
}

/// What a function seeks that stands in the braces of this type.
fn sought_by<'a>(
    world: World<'a>,
    listed: &Listed<'a>,
    base: &'a [u8],
    owner: TypeId<'a>,
) -> Sought<'a>
    ensures view { view_of result.view ≡ spec.round (world_of world.entry) (key_of_type owner.entry) }
    ensures base { result.base.now ≡ base.now }
    ensures function { entry_view result.function ≡ entry_view listed.now }
{
    let own = world.own;
    let view = Viewpoint {
        module: own.listing.name.as_slice(),
        type_round: Some(owner),
    };
    Sought {
        view,
        base,
        function: *listed,
    }
}

fn root_above<'a>(
    bases: Bases<'a>,
    listed: &Listed<'a>,
    base: &'a [u8],
    owner: TypeId<'a>,
) -> Option<Member<'a>>
    requires { AreBases bases }
    ensures { found_member result ≡ spec.root_above (world_with bases.entry) (entry_view listed.now) base.now (key_of_type owner.entry) }
{
    let world = bases.world();
    let Some(above) = superclass(world, owner) else {
        return None;
    };
    let sought = sought_by(world, listed, base, owner);
    nearest_root(sought, above, bases, longest_way(bases))
}

/// The function that an override means: the nearest in the braces of a class above its own that has its base name and its
/// labels, overrides none, and is seen. The walk takes no memory.
pub fn root_of<'a>(bases: Bases<'a>, listed: &Listed<'a>) -> Option<Member<'a>>
    requires { AreBases bases }
    ensures { found_member result ≡ keys.root_of (declared_in (world_with bases.entry) (entry_view listed.now)) }
{
    let Some(name) = name_of(listed) else {
        return None;
    };
    let Some(owner) = owner_of(bases.world(), listed.within) else {
        return None;
    };
    root_above(bases, listed, name.text, owner.key)
}
