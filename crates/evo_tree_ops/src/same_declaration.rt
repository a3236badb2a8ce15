//! Declarations that are the same but for places.

ghost use Rattle.std.specs.Prelude.{◌≡◌, ◌↔◌, IsTrue, map};
ghost use Rattle.evo_tree.specs.Bare.{bare_accessors, bare_attr, bare_decl, bare_generic, bare_header, bare_kind, bare_modifier, bare_parameter, bare_parameter_label, bare_payload, bare_requirement};

use crate::compared::{Compared, both, same_list, same_option};
use crate::same_statement::same_introducer;
use evo_tree::{
    Accessors, Attr, AttrKind, Decl, DeclKind, GenericParameter, Header, Modifier, ModifierKind,
    NominalKind, Parameter, ParameterLabel, Payload, Requirement,
};
use sqlite_items::Items;

fn same_attr_kind(a: AttrKind, b: AttrKind) -> bool
    ensures { IsTrue result ↔ (a ≡ b) }
{
    a == b
}

fn same_modifier_kind(a: ModifierKind, b: ModifierKind) -> bool
    ensures { IsTrue result ↔ (a ≡ b) }
{
    a == b
}

fn same_nominal_kind(a: NominalKind, b: NominalKind) -> bool
    ensures { IsTrue result ↔ (a ≡ b) }
{
    a == b
}

impl Compared for Attr {
    ghost bare = { bare_attr };

    fn same(&self, other: &Attr) -> bool {
        same_attr_kind(self.kind, other.kind)
    }
}

impl Compared for Modifier {
    ghost bare = { bare_modifier };

    fn same(&self, other: &Modifier) -> bool {
        same_modifier_kind(self.kind, other.kind)
    }
}

impl Compared for GenericParameter {
    ghost bare = { bare_generic };

    fn same(&self, other: &GenericParameter) -> bool {
        both(
            self.name.same(&other.name),
            same_list(&self.protocols, &other.protocols),
        )
    }
}

fn same_parameter_label(a: &ParameterLabel, b: &ParameterLabel) -> bool
    ensures { IsTrue result ↔ (bare_parameter_label a.now ≡ bare_parameter_label b.now) }
{
    match a {
        ParameterLabel::Same => match b {
            ParameterLabel::Same => true,
            _ => false,
        },
        ParameterLabel::Blank => match b {
            ParameterLabel::Blank => true,
            _ => false,
        },
        ParameterLabel::Written(n) => match b {
            ParameterLabel::Written(m) => n.same(m),
            _ => false,
        },
    }
}

impl Compared for Parameter {
    ghost bare = { bare_parameter };

    fn same(&self, other: &Parameter) -> bool {
        both(
            same_parameter_label(&self.label, &other.label),
            both(
                self.name.same(&other.name),
                self.type_name.same(&other.type_name),
            ),
        )
    }
}

fn same_requirement(a: &Requirement, b: &Requirement) -> bool
    ensures { IsTrue result ↔ (bare_requirement a.now ≡ bare_requirement b.now) }
{
    match a {
        Requirement::Conforms(t, xs) => match b {
            Requirement::Conforms(u, ys) => both(t.same(u), same_list(xs, ys)),
            _ => false,
        },
        Requirement::Same(t, _, v) => match b {
            Requirement::Same(u, _, w) => both(t.same(u), v.same(w)),
            _ => false,
        },
    }
}

impl Compared for Requirement {
    ghost bare = { bare_requirement };

    fn same(&self, other: &Requirement) -> bool {
        same_requirement(self, other)
    }
}

impl Compared for Header {
    ghost bare = { bare_header };

    fn same(&self, other: &Header) -> bool {
        both(
            same_list(&self.generics, &other.generics),
            both(
                same_list(&self.parameters, &other.parameters),
                both(
                    same_option(&self.result, &other.result),
                    same_list(&self.requirements, &other.requirements),
                ),
            ),
        )
    }
}

fn same_accessors(a: &Accessors, b: &Accessors) -> bool
    ensures { IsTrue result ↔ (bare_accessors a.now ≡ bare_accessors b.now) }
{
    match a {
        Accessors::Stored => match b {
            Accessors::Stored => true,
            _ => false,
        },
        Accessors::Get => match b {
            Accessors::Get => true,
            _ => false,
        },
        Accessors::GetSet => match b {
            Accessors::GetSet => true,
            _ => false,
        },
        Accessors::Block(v) => match b {
            Accessors::Block(w) => v.same(w),
            _ => false,
        },
        Accessors::Blocks(v, x) => match b {
            Accessors::Blocks(w, y) => both(v.same(w), same_option(x, y)),
            _ => false,
        },
    }
}

impl Compared for Payload {
    ghost bare = { bare_payload };

    fn same(&self, other: &Payload) -> bool {
        both(
            same_option(&self.label, &other.label),
            self.type_name.same(&other.type_name),
        )
    }
}

#[cycle(sames)]
fn same_decls(a: &Items<Decl>, b: &Items<Decl>) -> bool
    ensures { IsTrue result ↔ (map bare_decl a.now ≡ map bare_decl b.now) }
{
    let xs = a.as_slice();
    let ys = b.as_slice();
    if xs.len() != ys.len() {
        return false;
    }
    for i in 0..xs.len() {
        let x = &xs[i];
        let y = &ys[i];
        if !same_decl(x, y) {
            return false;
        }
    }
    true
}

#[cycle(sames)]
fn same_decl(a: &Decl, b: &Decl) -> bool
    ensures { IsTrue result ↔ (bare_decl a.now ≡ bare_decl b.now) }
{
    both(
        same_list(&a.attrs, &b.attrs),
        both(
            same_list(&a.modifiers, &b.modifiers),
            same_kind(&a.kind, &b.kind),
        ),
    )
}

#[cycle(sames)]
fn same_kind(a: &DeclKind, b: &DeclKind) -> bool
    ensures { IsTrue result ↔ (bare_kind a.now ≡ bare_kind b.now) }
{
    match a {
        DeclKind::Function(n, h, v) => matches!(
            b,
            DeclKind::Function(m, i, w)
                if both(n.same(m), both(h.same(i), same_option(v, w)))
        ),
        DeclKind::Initialiser(h, v) =>
            matches!(b, DeclKind::Initialiser(i, w) if both(h.same(i), same_option(v, w))),
        DeclKind::Property(k, n, t, v) => matches!(
            b,
            DeclKind::Property(l, m, u, w)
                if both(same_introducer(*k, *l), both(n.same(m), both(t.same(u), same_accessors(v, w))))
        ),
        DeclKind::TypeAlias(n, t) =>
            matches!(b, DeclKind::TypeAlias(m, u) if both(n.same(m), t.same(u))),
        DeclKind::AssociatedType(n, xs, t) => matches!(
            b,
            DeclKind::AssociatedType(m, ys, u)
                if both(n.same(m), both(same_list(xs, ys), same_option(t, u)))
        ),
        DeclKind::Case(n, xs) =>
            matches!(b, DeclKind::Case(m, ys) if both(n.same(m), same_list(xs, ys))),
        DeclKind::Nominal(k, n, xs, v) => match b {
            DeclKind::Nominal(l, m, ys, w) => both(
                same_nominal_kind(*k, *l),
                both(n.same(m), both(same_list(xs, ys), same_decls(v, w))),
            ),
            _ => false,
        },
        DeclKind::Extension(t, xs, v) => match b {
            DeclKind::Extension(u, ys, w) => both(
                t.same(u),
                both(same_list(xs, ys), same_decls(v, w)),
            ),
            _ => false,
        },
    }
}

impl Compared for Decl {
    ghost bare = { bare_decl };

    fn same(&self, other: &Decl) -> bool {
        same_decl(self, other)
    }
}
