//! The condition of each rule that compares an old declaration with the new one of its key.

ghost use Rattle.std.specs.Prelude.{◌≡◌};
ghost use Rattle.evo_breaks.specs.Conditions as conditions;
ghost use Rattle.evo_breaks.specs.Words.{differs as the_differs};
ghost use Rattle.evo_breaks.specs.Same as same;
ghost use Rattle.evo_breaks.specs.Found as found;
ghost use Rattle.evo_breaks.specs.Found.{HasOneForEachKey};

use crate::classes::is_superclass_lost;
use crate::components::are_same_components;
use crate::found::{is_in_extension, is_same_type_kind, type_round};
use crate::rule::Rule;
use crate::same::{
    are_same_references, are_same_requirements, is_same_label, is_same_result, is_same_written,
};
use crate::words::{
    is_final, is_frozen, is_introduced_later, is_mutating, is_open, is_public, is_static, is_usable,
};
use evo_resolved::{Kept, RDecl, RDeclKind, RHeader, RModule, RParameter, RPayload, RReference};
use evo_tree::{Introducer, NominalKind};

pub(crate) fn is_class(kind: &RDeclKind) -> bool
    ensures { result ≡ conditions.is_class kind.now }
{
    matches!(kind, RDeclKind::Nominal(NominalKind::Class, _, _))
}

fn is_struct(kind: &RDeclKind) -> bool
    ensures { result ≡ conditions.is_struct kind.now }
{
    matches!(kind, RDeclKind::Nominal(NominalKind::Struct, _, _))
}

fn is_enum(kind: &RDeclKind) -> bool
    ensures { result ≡ conditions.is_enum kind.now }
{
    matches!(kind, RDeclKind::Nominal(NominalKind::Enum, _, _))
}

pub(crate) fn is_protocol(kind: &RDeclKind) -> bool
    ensures { result ≡ conditions.is_protocol kind.now }
{
    matches!(kind, RDeclKind::Nominal(NominalKind::Protocol, _, _))
}

fn is_function(kind: &RDeclKind) -> bool
    ensures { result ≡ conditions.is_function kind.now }
{
    matches!(kind, RDeclKind::Function(_))
}

fn is_called(kind: &RDeclKind) -> bool
    ensures { result ≡ conditions.is_called kind.now }
{
    matches!(kind, RDeclKind::Function(_) | RDeclKind::Initialiser(_))
}

fn differs(a: bool, b: bool) -> bool
    ensures { result ≡ the_differs a b }
{
    a != b
}

fn is_access_lowered(old: &RDecl, new: &RDecl) -> bool
    ensures { result ≡ conditions.is_access_lowered old.now new.now }
{
    is_public(old) && !is_public(new)
        || is_usable(old) && !is_usable(new)
        || is_class(&old.kind) && is_open(old) && !is_open(new)
}

fn are_same_parameters(a: &[RParameter], b: &[RParameter]) -> bool
    ensures { result ≡ same.same_list conditions.same_parameter a.now b.now }
{
    match a {
        [] => b.is_empty(),
        [first, rest @ ..] => match b {
            [] => false,
            [other, others @ ..] => {
                is_same_written(&first.written, &other.written) && are_same_parameters(rest, others)
            }
        },
    }
}

fn is_same_header(a: &RHeader, b: &RHeader) -> bool
    ensures { result ≡ conditions.same_header a.now b.now }
{
    a.signature.generics.as_slice().len() == b.signature.generics.as_slice().len()
        && are_same_requirements(
            a.signature.requirements.as_slice(),
            b.signature.requirements.as_slice(),
        )
        && are_same_parameters(a.parameters.as_slice(), b.parameters.as_slice())
        && is_same_result(&a.result, &b.result)
}

fn is_other_header(old: &RDeclKind, new: &RDeclKind) -> bool
    ensures { result ≡ conditions.is_other_header old.now new.now }
{
    match old {
        RDeclKind::Function(a) => match new {
            RDeclKind::Function(b) => !is_same_header(a, b),
            _ => true,
        },
        RDeclKind::Initialiser(a) => match new {
            RDeclKind::Initialiser(b) => !is_same_header(a, b),
            _ => true,
        },
        _ => false,
    }
}

fn is_signature_changed(old: &RDecl, new: &RDecl) -> bool
    ensures { result ≡ conditions.is_signature_changed old.now new.now }
{
    is_called(&old.kind)
        && (is_other_header(&old.kind, &new.kind)
            || differs(is_static(old), is_static(new))
            || differs(is_mutating(old), is_mutating(new)))
}

fn is_settable(introducer: Introducer, kept: Kept) -> bool
    ensures { result ≡ conditions.is_settable introducer kept }
{
    match kept {
        Kept::Stored => matches!(introducer, Introducer::Var),
        Kept::Computed(setter) => setter,
    }
}

fn is_property_changed(old: &RDeclKind, new: &RDeclKind) -> bool
    ensures { result ≡ conditions.is_property_changed_by old.now new.now }
{
    match old {
        RDeclKind::Property(i, t, k) => match new {
            RDeclKind::Property(j, u, l) => {
                !is_same_written(t, u) || is_settable(*i, *k) && !is_settable(*j, *l)
            }
            _ => true,
        },
        _ => false,
    }
}

pub(crate) fn are_same_payloads(a: &[RPayload], b: &[RPayload]) -> bool
    ensures { result ≡ same.same_list conditions.same_value a.now b.now }
{
    match a {
        [] => b.is_empty(),
        [first, rest @ ..] => match b {
            [] => false,
            [other, others @ ..] => {
                is_same_label(&first.label, &other.label)
                    && is_same_written(&first.written, &other.written)
                    && are_same_payloads(rest, others)
            }
        },
    }
}

fn is_same_payload(old: &RDeclKind, new: &RDeclKind) -> bool
    ensures { result ≡ conditions.same_payload old.now new.now }
{
    match old {
        RDeclKind::Case(a) => match new {
            RDeclKind::Case(b) => are_same_payloads(a.as_slice(), b.as_slice()),
            _ => false,
        },
        _ => false,
    }
}

#[tactic(auto, unfolding(crate::specs::Conditions::is_layout_changed))]
fn is_layout_changed(old: &RModule, new: &RModule, before: &RDecl, after: &RDecl) -> bool
    ensures { result ≡ conditions.is_layout_changed old.now new.now before.now after.now }
{
    is_frozen(before) && is_frozen(after) && !are_same_components(old, new, &before.own)
}

fn is_round_final(interface: &RModule, decl: &RDecl) -> bool
    requires { HasOneForEachKey interface.now }
    ensures { result ≡ conditions.is_final_there (found.type_round interface.now decl.now) }
{
    match type_round(interface, decl) {
        Some(class) => is_final(class),
        None => false,
    }
}

fn is_round_class(interface: &RModule, decl: &RDecl) -> bool
    requires { HasOneForEachKey interface.now }
    ensures { result ≡ conditions.is_class_there (found.type_round interface.now decl.now) }
{
    match type_round(interface, decl) {
        Some(class) => is_class(&class.kind),
        None => false,
    }
}

#[tactic(auto, unfolding(crate::specs::Conditions::is_closed))]
fn is_closed(interface: &RModule, decl: &RDecl) -> bool
    requires { HasOneForEachKey interface.now }
    ensures { result ≡ conditions.is_closed interface.now decl.now }
{
    is_final(decl) || is_in_extension(decl) || is_round_final(interface, decl)
}

#[tactic(auto, unfolding(crate::specs::Conditions::is_overriding_changed))]
fn is_overriding_changed(old: &RModule, new: &RModule, before: &RDecl, after: &RDecl) -> bool
    requires old_keys { HasOneForEachKey old.now }
    requires new_keys { HasOneForEachKey new.now }
    ensures { result ≡ conditions.is_overriding_changed old.now new.now before.now after.now }
{
    is_function(&before.kind)
        && is_round_class(old, before)
        && (is_open(before) && !is_open(after)
            || differs(is_closed(old, before), is_closed(new, after)))
}

fn has_same_setter(old: &RDeclKind, new: &RDeclKind) -> bool
    ensures { result ≡ conditions.same_setter old.now new.now }
{
    match old {
        RDeclKind::Property(i, _, k) => match new {
            RDeclKind::Property(j, _, l) => !differs(is_settable(*i, *k), is_settable(*j, *l)),
            _ => true,
        },
        _ => true,
    }
}

fn is_requirement_changed(old: &RDecl, new: &RDecl) -> bool
    ensures { result ≡ conditions.is_requirement_changed old.now new.now }
{
    is_signature_changed(old, new)
        || is_property_changed(&old.kind, &new.kind)
        || !has_same_setter(&old.kind, &new.kind)
}

fn inherited_by(kind: &RDeclKind) -> &[RReference]
    ensures { result.now ≡ conditions.inherited_by kind.now }
{
    match kind {
        RDeclKind::Nominal(_, _, protocols) => protocols.as_slice(),
        _ => &[],
    }
}

fn is_inheritance_changed(old: &RDecl, new: &RDecl) -> bool
    ensures { result ≡ conditions.is_inheritance_changed old.now new.now }
{
    is_protocol(&old.kind) && !are_same_references(inherited_by(&old.kind), inherited_by(&new.kind))
}

fn is_association_changed(old: &RDeclKind, new: &RDeclKind) -> bool
    ensures { result ≡ conditions.is_association_changed old.now new.now }
{
    match old {
        RDeclKind::AssociatedType(a, t) => match new {
            RDeclKind::AssociatedType(b, u) => {
                !are_same_references(a.as_slice(), b.as_slice()) || t.is_some() && u.is_none()
            }
            _ => true,
        },
        _ => true,
    }
}

/// Whether an old declaration and the new one of its key break a rule.
#[tactic(auto, unfolding(crate::specs::Conditions::is_broken))]
pub(crate) fn is_broken(
    rule: Rule,
    old: &RModule,
    new: &RModule,
    before: &RDecl,
    after: &RDecl,
) -> bool
    requires old_keys { HasOneForEachKey old.now }
    requires new_keys { HasOneForEachKey new.now }
    ensures { result ≡ conditions.is_broken rule old.now new.now before.now after.now }
{
    match rule {
        Rule::KindChanged => !is_same_type_kind(&before.kind, &after.kind),
        Rule::AccessLowered => is_access_lowered(before, after),
        Rule::SignatureChanged => is_signature_changed(before, after),
        Rule::PropertyChanged => is_property_changed(&before.kind, &after.kind),
        Rule::FrozenChanged => differs(is_frozen(before), is_frozen(after)),
        Rule::FrozenStorageChanged => {
            is_struct(&before.kind) && is_layout_changed(old, new, before, after)
        }
        Rule::FrozenCasesChanged => {
            is_enum(&before.kind) && is_layout_changed(old, new, before, after)
        }
        Rule::CaseChanged => !is_same_payload(&before.kind, &after.kind),
        Rule::ClassFinalityChanged => {
            is_class(&before.kind) && differs(is_final(before), is_final(after))
        }
        Rule::SuperclassLost => is_superclass_lost(new, before),
        Rule::OpenOrFinalChanged => is_overriding_changed(old, new, before, after),
        Rule::RequirementChanged => is_requirement_changed(before, after),
        Rule::AssociatedTypeChanged => is_association_changed(&before.kind, &after.kind),
        Rule::InheritedProtocolsChanged => is_inheritance_changed(before, after),
        Rule::IntroducedLater => {
            is_introduced_later(before.attrs.as_slice(), after.attrs.as_slice())
        }
        _ => false,
    }
}
