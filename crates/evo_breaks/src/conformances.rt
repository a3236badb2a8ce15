//! The conformances that headers declare.

ghost use Rattle.std.specs.Prelude.{◌≡◌, ◌++◌, ◌↔◌, IsTrue, IfOk, OnOk, MatchOption, Some, None, [], ◌∷◌, flat_map};
ghost use Rattle.std.specs.List.{list_any};
ghost use Rattle.evo_breaks.specs.declared.rule.Rule.TheVariants as rule;
ghost use Rattle.evo_breaks.specs.Found as found_there;
ghost use Rattle.evo_breaks.specs.Rules as rules;
ghost use Rattle.evo_breaks.specs.Found.{HasOneForEachKey};

use crate::found::{conformance_in, is_gone, type_in};
use crate::rule::{Break, Rule, Side, between};
use crate::same::{is_same_key, is_same_type};
use evo_base::Key;
use evo_resolved::{RConformance, RDecl, RDeclKind, RModule, RReference, RTypeWitness};
use evo_tree::NominalKind;
use std::alloc::{AllocError, Global};

fn conforms_to(kind: &RDeclKind) -> &[RReference]
    ensures { result.now ≡ rules.conforms_to kind.now }
{
    match kind {
        RDeclKind::Nominal(NominalKind::Protocol, _, _) => &[],
        RDeclKind::Nominal(_, _, protocols) => protocols.as_slice(),
        RDeclKind::Extension(_, _, protocols) => protocols.as_slice(),
        _ => &[],
    }
}

fn is_conformance_to(key: &Key, protocol: &Key, conformance: &RConformance) -> bool
    ensures { result ≡ rules.is_conformance_to key.now protocol.now conformance.now }
{
    is_same_key(&conformance.conformer, key) && is_same_key(&conformance.protocol.key, protocol)
}

fn conformance_of<'a>(
    conformances: &'a [RConformance],
    key: &Key,
    protocol: &Key,
) -> Option<&'a RConformance>
    ensures { MatchOption result (rules.conformance_of conformances.now key.now protocol.now ≡ None) (λ c. rules.conformance_of conformances.now key.now protocol.now ≡ Some c.now) }
{
    for conformance in conformances {
        if is_conformance_to(key, protocol, conformance) {
            return Some(conformance);
        }
    }
    None
}

fn is_same_witness(a: &RTypeWitness, b: &RTypeWitness) -> bool
    ensures { result ≡ rules.same_witness a.now b.now }
{
    a.name.as_slice() == b.name.as_slice() && is_same_type(&a.ty, &b.ty)
}

fn is_kept(witness: &RTypeWitness, among: &[RTypeWitness]) -> bool
    ensures { result ≡ list_any (λ b. rules.same_witness witness.now b) among.now }
{
    among.iter().any(|other| is_same_witness(witness, other))
}

fn keeps_types(old: &RConformance, new: &RConformance) -> bool
    ensures { result ≡ rules.keeps_types old.now new.now }
{
    let after = new.types.as_slice();
    old.types
        .as_slice()
        .iter()
        .all(|witness| is_kept(witness, after))
}

/// The type or protocol of a key, where the interface declares it, and else the module.
#[tactic(auto, unfolding(crate::specs::Rules::side_round))]
pub(crate) fn side_in(alloc: Global, interface: &RModule, key: &Key) -> Result<Side, AllocError>
    requires { HasOneForEachKey interface.now }
    ensures { IfOk result (λ side. side ≡ rules.side_round interface.now (Some key.now)) }
{
    match type_in(interface, key) {
        Some(decl) => Ok(Side::Declared(decl.own.copy(alloc)?)),
        None => Ok(Side::Module),
    }
}

fn lost_conformance(
    alloc: Global,
    new: &RModule,
    conformance: &RConformance,
) -> Result<Break, AllocError>
    requires { HasOneForEachKey new.now }
    ensures { IfOk result (λ found. found ∷ [] ≡ rules.removed rule.ConformanceChanged new.now conformance.now.key (Some conformance.now.conformer)) }
{
    Ok(Break {
        rule: Rule::ConformanceChanged,
        old: Side::Declared(conformance.key.copy(alloc)?),
        new: side_in(alloc, new, &conformance.conformer)?,
    })
}

fn compare_conformance(
    alloc: Global,
    new: &RModule,
    conformance: &RConformance,
    found: &mut Vec<Break>,
) -> Result<(), AllocError>
    requires { HasOneForEachKey new.now }
    ensures { OnOk result (found.new.items ≡ found.old.items ++ rules.compared_conformance new.now conformance.now (found_there.conformance_in new.now conformance.now.key)) }
{
    match conformance_in(new, &conformance.key) {
        None => {
            found.push(lost_conformance(alloc, new, conformance)?)?;
            Ok(())
        }
        Some(after) => {
            if keeps_types(conformance, after) {
                return Ok(());
            }
            let rule = Rule::ConformanceChanged;
            found.push(between(alloc, rule, &conformance.key, &after.key)?)?;
            Ok(())
        }
    }
}

#[tactic(auto, unfolding(crate::specs::Rules::conformance_breaks))]
fn put_conformance(
    alloc: Global,
    old: &RModule,
    new: &RModule,
    key: &Key,
    protocol: &RReference,
    found: &mut Vec<Break>,
) -> Result<(), AllocError>
    requires { HasOneForEachKey new.now }
    ensures { OnOk result (found.new.items ≡ found.old.items ++ rules.conformance_breaks old.now new.now key.now protocol.now) }
{
    match conformance_of(old.conformances.as_slice(), key, &protocol.key) {
        Some(conformance) => compare_conformance(alloc, new, conformance, found),
        None => Ok(()),
    }
}

/// Puts the breaks of the conformances in a header behind those that are found.
#[tactic(auto, unfolding(crate::specs::Rules::header_breaks))]
pub(crate) fn put_header(
    alloc: Global,
    old: &RModule,
    new: &RModule,
    decl: &RDecl,
    found: &mut Vec<Break>,
) -> Result<(), AllocError>
    requires old_keys { HasOneForEachKey old.now }
    requires new_keys { HasOneForEachKey new.now }
    ensures { OnOk result (found.new.items ≡ found.old.items ++ rules.header_breaks old.now new.now decl.now) }
{
    if is_gone(old, new, &decl.own) {
        return Ok(());
    }
    let protocols = conforms_to(&decl.kind);
    for protocol in protocols {
        put_conformance(alloc, old, new, &decl.own, protocol, found)?;
    }
    Ok(())
}

fn conformance_stays(new: &RModule, conformance: &RConformance) -> bool
    requires { HasOneForEachKey new.now }
    ensures { IsTrue result ↔ (rules.compared_conformance new.now conformance.now (found_there.conformance_in new.now conformance.now.key) ≡ []) }
{
    match conformance_in(new, &conformance.key) {
        None => false,
        Some(after) => keeps_types(conformance, after),
    }
}

#[tactic(auto, unfolding(crate::specs::Rules::conformance_breaks))]
fn conformance_passes(old: &RModule, new: &RModule, key: &Key, protocol: &RReference) -> bool
    requires { HasOneForEachKey new.now }
    ensures { IsTrue result ↔ (rules.conformance_breaks old.now new.now key.now protocol.now ≡ []) }
{
    match conformance_of(old.conformances.as_slice(), key, &protocol.key) {
        Some(conformance) => conformance_stays(new, conformance),
        None => true,
    }
}

fn conformances_pass(old: &RModule, new: &RModule, key: &Key, protocols: &[RReference]) -> bool
    requires { HasOneForEachKey new.now }
    ensures { IsTrue result ↔ (flat_map (rules.conformance_breaks old.now new.now key.now) protocols.now ≡ []) }
{
    for protocol in protocols {
        if !conformance_passes(old, new, key, protocol) {
            return false;
        }
    }
    true
}

/// Whether the conformances in a header break nothing.
#[tactic(auto, unfolding(crate::specs::Rules::header_breaks))]
pub(crate) fn header_passes(old: &RModule, new: &RModule, decl: &RDecl) -> bool
    requires old_keys { HasOneForEachKey old.now }
    requires new_keys { HasOneForEachKey new.now }
    ensures { IsTrue result ↔ (rules.header_breaks old.now new.now decl.now ≡ []) }
{
    is_gone(old, new, &decl.own) || conformances_pass(old, new, &decl.own, conforms_to(&decl.kind))
}
