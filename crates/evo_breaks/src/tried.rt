//! The rules tried one after another.

ghost use Rattle.std.specs.Prelude.{◌≡◌, ◌++◌, ◌∷◌, IfOk, OnOk, [], flat_map};
ghost use Rattle.evo_breaks.specs.Rules as rules;
ghost use Rattle.evo_breaks.specs.Found as found_there;
ghost use Rattle.evo_breaks.specs.Found.{HasOneForEachKey};

use crate::conditions::is_broken;
use crate::conformances::{put_header, side_in};
use crate::found::{declared_as, is_with_gone, owner_of, sort_of, type_round};
use crate::protocols::put_protocol;
use crate::rule::{Break, Rule, Side, between};
use crate::sort::Sort;
use crate::words::{is_frozen, is_usable};
use evo_resolved::{RDecl, RDeclKind, RModule};
use std::alloc::{AllocError, Global};

const FIRST_OF_TYPES: [Rule; 6] = [
    Rule::AccessLowered,
    Rule::FrozenChanged,
    Rule::FrozenStorageChanged,
    Rule::FrozenCasesChanged,
    Rule::ClassFinalityChanged,
    Rule::SuperclassLost,
];

const LAST_OF_TYPES: [Rule; 2] = [Rule::InheritedProtocolsChanged, Rule::IntroducedLater];

const OF_MEMBERS: [Rule; 5] = [
    Rule::AccessLowered,
    Rule::SignatureChanged,
    Rule::PropertyChanged,
    Rule::OpenOrFinalChanged,
    Rule::IntroducedLater,
];

const OF_REQUIREMENTS: [Rule; 1] = [Rule::RequirementChanged];

const OF_ASSOCIATED_TYPES: [Rule; 2] = [Rule::AssociatedTypeChanged, Rule::IntroducedLater];

const OF_CASES: [Rule; 1] = [Rule::CaseChanged];

#[tactic(auto, unfolding(crate::specs::Rules::first_rules))]
pub(crate) fn first_rules(sort: Sort) -> &'static [Rule]
    ensures { result.now ≡ rules.first_rules sort }
{
    match sort {
        Sort::Nominal => &FIRST_OF_TYPES,
        Sort::Member => &OF_MEMBERS,
        Sort::Requirement => &OF_REQUIREMENTS,
        Sort::AssociatedType => &OF_ASSOCIATED_TYPES,
        Sort::Case => &OF_CASES,
        Sort::Untried => &[],
    }
}

#[tactic(auto, unfolding(crate::specs::Rules::last_rules))]
pub(crate) fn last_rules(sort: Sort) -> &'static [Rule]
    ensures { result.now ≡ rules.last_rules sort }
{
    match sort {
        Sort::Nominal => &LAST_OF_TYPES,
        _ => &[],
    }
}

// Puts the breaks of these rules behind those that are found.
fn try_rules(
    alloc: Global,
    list: &[Rule],
    old: &RModule,
    new: &RModule,
    before: &RDecl,
    after: &RDecl,
    found: &mut Vec<Break>,
) -> Result<(), AllocError>
    requires old_keys { HasOneForEachKey old.now }
    requires new_keys { HasOneForEachKey new.now }
    ensures { OnOk result (found.new.items ≡ found.old.items ++ rules.broken_by list.now old.now new.now before.now after.now) }
{
    for rule in list {
        if is_broken(*rule, old, new, before, after) {
            found.push(between(alloc, *rule, &before.own, &after.own)?)?;
        }
    }
    Ok(())
}

#[tactic(auto, unfolding(crate::specs::Rules::compared))]
fn compare(
    alloc: Global,
    old: &RModule,
    new: &RModule,
    before: &RDecl,
    after: &RDecl,
    found: &mut Vec<Break>,
) -> Result<(), AllocError>
    requires old_keys { HasOneForEachKey old.now }
    requires new_keys { HasOneForEachKey new.now }
    ensures { OnOk result (found.new.items ≡ found.old.items ++ rules.compared old.now new.now before.now after.now) }
{
    let sort = sort_of(before);
    try_rules(alloc, first_rules(sort), old, new, before, after, found)?;
    put_protocol(alloc, old, new, before, found)?;
    try_rules(alloc, last_rules(sort), old, new, before, after, found)?;
    Ok(())
}

#[tactic(auto, unfolding(crate::specs::Rules::compared_by_kind))]
fn compare_by_kind(
    alloc: Global,
    old: &RModule,
    new: &RModule,
    before: &RDecl,
    after: &RDecl,
    found: &mut Vec<Break>,
) -> Result<(), AllocError>
    requires old_keys { HasOneForEachKey old.now }
    requires new_keys { HasOneForEachKey new.now }
    ensures { OnOk result (found.new.items ≡ found.old.items ++ rules.compared_by_kind old.now new.now before.now after.now) }
{
    if is_broken(Rule::KindChanged, old, new, before, after) {
        found.push(between(alloc, Rule::KindChanged, &before.own, &after.own)?)?;
        return Ok(());
    }
    compare(alloc, old, new, before, after, found)
}

fn removal_rule(sort: Sort) -> Rule
    ensures { result ≡ rules.removal_rule sort }
{
    match sort {
        Sort::Requirement => Rule::RequirementChanged,
        Sort::Case => Rule::CaseChanged,
        Sort::AssociatedType => Rule::AssociatedTypeChanged,
        _ => Rule::DeclarationRemoved,
    }
}

#[tactic(auto, unfolding(crate::specs::Rules::side_round))]
fn side_round(alloc: Global, new: &RModule, decl: &RDecl) -> Result<Side, AllocError>
    requires { HasOneForEachKey new.now }
    ensures { IfOk result (λ side. side ≡ rules.side_round new.now (found_there.owner_of decl.now)) }
{
    match owner_of(decl) {
        Some(key) => side_in(alloc, new, key),
        None => Ok(Side::Module),
    }
}

fn removal(alloc: Global, new: &RModule, decl: &RDecl) -> Result<Break, AllocError>
    requires { HasOneForEachKey new.now }
    ensures { IfOk result (λ found. found ∷ [] ≡ rules.removed (rules.removal_rule (found_there.sort_of decl.now)) new.now decl.now.own (found_there.owner_of decl.now)) }
{
    Ok(Break {
        rule: removal_rule(sort_of(decl)),
        old: Side::Declared(decl.own.copy(alloc)?),
        new: side_round(alloc, new, decl)?,
    })
}

pub(crate) fn is_nominal(sort: Sort) -> bool
    ensures { result ≡ rules.is_nominal sort }
{
    matches!(sort, Sort::Nominal)
}

#[tactic(auto, unfolding(crate::specs::Rules::compared_to))]
fn compare_to_new(
    alloc: Global,
    old: &RModule,
    new: &RModule,
    decl: &RDecl,
    found: &mut Vec<Break>,
) -> Result<(), AllocError>
    requires old_keys { HasOneForEachKey old.now }
    requires new_keys { HasOneForEachKey new.now }
    ensures { OnOk result (found.new.items ≡ found.old.items ++ rules.compared_to old.now new.now decl.now (found_there.declared_as (found_there.sort_of decl.now) new.now decl.now.own)) }
{
    let sort = sort_of(decl);
    match declared_as(sort, new, &decl.own) {
        None => {
            found.push(removal(alloc, new, decl)?)?;
            Ok(())
        }
        Some(after) => {
            if is_nominal(sort) {
                return compare_by_kind(alloc, old, new, decl, after, found);
            }
            compare(alloc, old, new, decl, after, found)
        }
    }
}

fn is_round_frozen(interface: &RModule, decl: &RDecl) -> bool
    requires { HasOneForEachKey interface.now }
    ensures { result ≡ rules.is_frozen_there (found_there.type_round interface.now decl.now) }
{
    match type_round(interface, decl) {
        Some(owner) => is_frozen(owner),
        None => false,
    }
}

fn is_storage_alone(decl: &RDecl) -> bool
    ensures { result ≡ rules.is_storage_alone decl.now decl.now.kind }
{
    match &decl.kind {
        RDeclKind::Property(_, _, _) => !is_usable(decl),
        _ => false,
    }
}

fn is_tried_as(sort: Sort, old: &RModule, new: &RModule, decl: &RDecl) -> bool
    requires old_keys { HasOneForEachKey old.now }
    requires new_keys { HasOneForEachKey new.now }
    ensures { result ≡ rules.is_tried_as sort old.now new.now decl.now }
{
    match sort {
        Sort::Member => !is_storage_alone(decl),
        Sort::Case => !(is_round_frozen(old, decl) && is_round_frozen(new, decl)),
        Sort::Untried => false,
        _ => true,
    }
}

#[tactic(auto, unfolding(crate::specs::Rules::is_tried))]
pub(crate) fn is_tried(old: &RModule, new: &RModule, decl: &RDecl) -> bool
    requires old_keys { HasOneForEachKey old.now }
    requires new_keys { HasOneForEachKey new.now }
    ensures { result ≡ rules.is_tried old.now new.now decl.now }
{
    is_tried_as(sort_of(decl), old, new, decl) && !is_with_gone(old, new, decl)
}

#[tactic(auto, unfolding(crate::specs::Rules::declaration_breaks))]
fn put_declaration(
    alloc: Global,
    old: &RModule,
    new: &RModule,
    decl: &RDecl,
    found: &mut Vec<Break>,
) -> Result<(), AllocError>
    requires old_keys { HasOneForEachKey old.now }
    requires new_keys { HasOneForEachKey new.now }
    ensures { OnOk result (found.new.items ≡ found.old.items ++ rules.declaration_breaks old.now new.now decl.now) }
{
    if is_tried(old, new, decl) {
        return compare_to_new(alloc, old, new, decl, found);
    }
    Ok(())
}

#[tactic(auto, unfolding(crate::specs::Rules::breaks_of))]
fn put_breaks(
    alloc: Global,
    old: &RModule,
    new: &RModule,
    decl: &RDecl,
    found: &mut Vec<Break>,
) -> Result<(), AllocError>
    requires old_keys { HasOneForEachKey old.now }
    requires new_keys { HasOneForEachKey new.now }
    ensures { OnOk result (found.new.items ≡ found.old.items ++ rules.breaks_of old.now new.now decl.now) }
{
    put_declaration(alloc, old, new, decl, found)?;
    put_header(alloc, old, new, decl, found)?;
    Ok(())
}

// Puts the breaks of these old declarations behind those that are found.
fn put_all(
    alloc: Global,
    old: &RModule,
    new: &RModule,
    decls: &[RDecl],
    found: &mut Vec<Break>,
) -> Result<(), AllocError>
    requires old_keys { HasOneForEachKey old.now }
    requires new_keys { HasOneForEachKey new.now }
    ensures { OnOk result (found.new.items ≡ found.old.items ++ flat_map (rules.breaks_of old.now new.now) decls.now) }
{
    for decl in decls {
        put_breaks(alloc, old, new, decl, found)?;
    }
    Ok(())
}

/// The rules that a new interface breaks against an old one, in the order of the old one. Only memory can fail.
#[tactic(auto, unfolding(crate::specs::Rules::broken_rules))]
pub fn breaks(alloc: Global, old: &RModule, new: &RModule) -> Result<Vec<Break>, AllocError>
    requires old_keys { HasOneForEachKey old.now }
    requires new_keys { HasOneForEachKey new.now }
    ensures { IfOk result (λ found. found.items ≡ rules.broken_rules old.now new.now) }
{
    let mut found = Vec::new(alloc);
    if old.name.as_slice() == new.name.as_slice() {
        put_all(alloc, old, new, old.decls.as_slice(), &mut found)?;
        return Ok(found);
    }
    found.push(Break {
        rule: Rule::ModuleNameDiffers,
        old: Side::Module,
        new: Side::Module,
    })?;
    Ok(found)
}
