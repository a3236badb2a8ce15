//! What a protocol newly asks of the types that conform to it.

ghost use Rattle.std.specs.Prelude.{◌≡◌, ◌++◌, ◌↔◌, IsTrue, OnOk, []};
ghost use Rattle.std.specs.List.{list_any};
ghost use Rattle.evo_breaks.specs.Conditions as conditions;
ghost use Rattle.evo_breaks.specs.Rules as rules;
ghost use Rattle.evo_breaks.specs.Found as found_there;
ghost use Rattle.evo_breaks.specs.Found.{HasOneForEachKey};

use crate::components::is_owned_by;
use crate::conditions::is_protocol;
use crate::found::{declared, declared_as};
use crate::rule::{Break, Rule, between};
use crate::same::is_same_key;
use crate::sort::Sort;
use crate::words::is_public;
use evo_base::Key;
use evo_resolved::{RDecl, RDeclKind, RDefault, RModule, RProtocol, RReference};
use std::alloc::{AllocError, Global};

fn protocol_in<'a>(protocols: &'a [RProtocol], key: &Key) -> &'a [RDefault]
    ensures { result.now ≡ rules.protocol_in protocols.now key.now }
{
    for protocol in protocols {
        if is_same_key(&protocol.key, key) {
            return protocol.defaults.as_slice();
        }
    }
    &[]
}

fn has_public_default(interface: &RModule, default: &RDefault) -> bool
    requires { HasOneForEachKey interface.now }
    ensures { result ≡ rules.has_public_default interface.now default.now }
{
    match &default.member {
        Some(key) => match declared(interface, key) {
            Some(decl) => is_public(decl),
            None => false,
        },
        None => false,
    }
}

fn is_declared_as(sort: Sort, interface: &RModule, key: &Key) -> bool
    requires { HasOneForEachKey interface.now }
    ensures { result ≡ conditions.is_there (found_there.declared_as sort interface.now key.now) }
{
    match declared_as(sort, interface, key) {
        Some(_) => true,
        None => false,
    }
}

fn is_demanding(old: &RModule, new: &RModule, default: &RDefault) -> bool
    requires old_keys { HasOneForEachKey old.now }
    requires new_keys { HasOneForEachKey new.now }
    ensures { result ≡ rules.is_demanding old.now new.now default.now }
{
    !is_declared_as(Sort::Requirement, old, &default.requirement)
        && !has_public_default(new, default)
}

fn is_associated(kind: &RDeclKind) -> bool
    ensures { result ≡ rules.is_associated kind.now }
{
    matches!(kind, RDeclKind::AssociatedType(_, _))
}

fn is_namesake(protocol: &Key, associated: &RDecl, decl: &RDecl) -> bool
    ensures { result ≡ rules.is_namesake protocol.now associated.now decl.now }
{
    is_associated(&decl.kind)
        && decl.own.base.as_slice() == associated.own.base.as_slice()
        && !is_owned_by(protocol, decl)
}

#[tactic(auto, unfolding(crate::specs::Rules::has_namesake))]
fn has_namesake(interface: &RModule, protocol: &Key, associated: &RDecl) -> bool
    ensures { result ≡ rules.has_namesake interface.now protocol.now associated.now }
{
    interface
        .decls
        .as_slice()
        .iter()
        .any(|decl| is_namesake(protocol, associated, decl))
}

fn is_constrained(constraints: &[RReference]) -> bool
    ensures { result ≡ rules.is_constrained constraints.now }
{
    match constraints {
        [] => false,
        [_, ..] => true,
    }
}

fn asks_more_by(namesake: bool, kind: &RDeclKind) -> bool
    ensures { result ≡ rules.asks_more_by namesake kind.now }
{
    match kind {
        RDeclKind::AssociatedType(constraints, default) => {
            default.is_none() || is_constrained(constraints.as_slice()) && namesake
        }
        _ => false,
    }
}

#[tactic(auto, unfolding(crate::specs::Rules::asks_more))]
fn asks_more(old: &RModule, protocol: &Key, decl: &RDecl) -> bool
    requires { HasOneForEachKey old.now }
    ensures { result ≡ rules.asks_more old.now protocol.now decl.now }
{
    is_associated(&decl.kind)
        && is_owned_by(protocol, decl)
        && !is_declared_as(Sort::AssociatedType, old, &decl.own)
        && asks_more_by(has_namesake(old, protocol, decl), &decl.kind)
}

#[tactic(auto, unfolding(crate::specs::Rules::demands))]
fn put_demands(
    alloc: Global,
    old: &RModule,
    new: &RModule,
    protocol: &Key,
    found: &mut Vec<Break>,
) -> Result<(), AllocError>
    requires old_keys { HasOneForEachKey old.now }
    requires new_keys { HasOneForEachKey new.now }
    ensures { OnOk result (found.new.items ≡ found.old.items ++ rules.demands old.now new.now protocol.now) }
{
    let defaults = protocol_in(new.protocols.as_slice(), protocol);
    for default in defaults {
        if is_demanding(old, new, default) {
            let rule = Rule::RequirementWithoutDefault;
            found.push(between(alloc, rule, protocol, &default.requirement)?)?;
        }
    }
    Ok(())
}

#[tactic(auto, unfolding(crate::specs::Rules::associations))]
fn put_associations(
    alloc: Global,
    old: &RModule,
    new: &RModule,
    protocol: &Key,
    found: &mut Vec<Break>,
) -> Result<(), AllocError>
    requires { HasOneForEachKey old.now }
    ensures { OnOk result (found.new.items ≡ found.old.items ++ rules.associations old.now new.now protocol.now) }
{
    let decls = new.decls.as_slice();
    for decl in decls {
        if asks_more(old, protocol, decl) {
            let rule = Rule::AssociatedTypeChanged;
            found.push(between(alloc, rule, protocol, &decl.own)?)?;
        }
    }
    Ok(())
}

/// Puts the breaks of a protocol's new members behind those that are found.
#[tactic(auto, unfolding(crate::specs::Rules::protocol_breaks))]
pub(crate) fn put_protocol(
    alloc: Global,
    old: &RModule,
    new: &RModule,
    decl: &RDecl,
    found: &mut Vec<Break>,
) -> Result<(), AllocError>
    requires old_keys { HasOneForEachKey old.now }
    requires new_keys { HasOneForEachKey new.now }
    ensures { OnOk result (found.new.items ≡ found.old.items ++ rules.protocol_breaks old.now new.now decl.now) }
{
    if !is_protocol(&decl.kind) {
        return Ok(());
    }
    put_demands(alloc, old, new, &decl.own, found)?;
    put_associations(alloc, old, new, &decl.own, found)?;
    Ok(())
}

fn is_any_demanding(old: &RModule, new: &RModule, defaults: &[RDefault]) -> bool
    requires old_keys { HasOneForEachKey old.now }
    requires new_keys { HasOneForEachKey new.now }
    ensures { result ≡ list_any (rules.is_demanding old.now new.now) defaults.now }
{
    defaults
        .iter()
        .any(|default| is_demanding(old, new, default))
}

fn demands_nothing(old: &RModule, new: &RModule, protocol: &Key) -> bool
    requires old_keys { HasOneForEachKey old.now }
    requires new_keys { HasOneForEachKey new.now }
    ensures { IsTrue result ↔ (rules.demands old.now new.now protocol.now ≡ []) }
{
    let defaults = protocol_in(new.protocols.as_slice(), protocol);
    !is_any_demanding(old, new, defaults)
}

fn does_any_ask_more(old: &RModule, protocol: &Key, decls: &[RDecl]) -> bool
    requires { HasOneForEachKey old.now }
    ensures { result ≡ list_any (rules.asks_more old.now protocol.now) decls.now }
{
    decls.iter().any(|decl| asks_more(old, protocol, decl))
}

fn associates_nothing(old: &RModule, new: &RModule, protocol: &Key) -> bool
    requires { HasOneForEachKey old.now }
    ensures { IsTrue result ↔ (rules.associations old.now new.now protocol.now ≡ []) }
{
    !does_any_ask_more(old, protocol, new.decls.as_slice())
}

/// Whether a protocol's new members break nothing.
#[tactic(auto, unfolding(crate::specs::Rules::protocol_breaks), using(crate::proofs::Nothing::left_nil, crate::proofs::Nothing::right_nil))]
pub(crate) fn protocol_passes(old: &RModule, new: &RModule, decl: &RDecl) -> bool
    requires old_keys { HasOneForEachKey old.now }
    requires new_keys { HasOneForEachKey new.now }
    ensures { IsTrue result ↔ (rules.protocol_breaks old.now new.now decl.now ≡ []) }
{
    if !is_protocol(&decl.kind) {
        return true;
    }
    demands_nothing(old, new, &decl.own) && associates_nothing(old, new, &decl.own)
}
