//! Copies of declarations.

ghost use Rattle.std.specs.Prelude.{◌≡◌, IfOk};
ghost use Rattle.evo_tree.specs.declared.declaration.DeclKind.TheVariants as declared;

use crate::copy::{Copied, copy_list, copy_option};
use evo_base::List;
use evo_tree::{
    Accessors, Attr, Block, Decl, DeclKind, GenericParameter, Header, Identifier, Introducer,
    Modifier, NominalKind, Parameter, ParameterLabel, Payload, Requirement, TypeName,
};
use sqlite_items::Items;
use std::alloc::{AllocError, Global};

impl Copied for Attr {
    fn copy(&self, _alloc: Global) -> Result<Attr, AllocError> {
        Ok(*self)
    }
}

impl Copied for Modifier {
    fn copy(&self, _alloc: Global) -> Result<Modifier, AllocError> {
        Ok(*self)
    }
}

impl Copied for GenericParameter {
    fn copy(&self, alloc: Global) -> Result<GenericParameter, AllocError> {
        Ok(GenericParameter {
            name: self.name.copy(alloc)?,
            protocols: copy_list(alloc, &self.protocols)?,
        })
    }
}

impl Copied for ParameterLabel {
    fn copy(&self, alloc: Global) -> Result<ParameterLabel, AllocError> {
        match self {
            ParameterLabel::Same => Ok(ParameterLabel::Same),
            ParameterLabel::Blank => Ok(ParameterLabel::Blank),
            ParameterLabel::Written(name) => Ok(ParameterLabel::Written(name.copy(alloc)?)),
        }
    }
}

impl Copied for Parameter {
    fn copy(&self, alloc: Global) -> Result<Parameter, AllocError> {
        Ok(Parameter {
            place: self.place,
            label: self.label.copy(alloc)?,
            name: self.name.copy(alloc)?,
            type_name: self.type_name.copy(alloc)?,
        })
    }
}

impl Copied for Requirement {
    fn copy(&self, alloc: Global) -> Result<Requirement, AllocError> {
        match self {
            Requirement::Conforms(type_name, protocols) => Ok(Requirement::Conforms(
                type_name.copy(alloc)?,
                copy_list(alloc, protocols)?,
            )),
            Requirement::Same(left, place, right) => {
                Ok(Requirement::Same(left.copy(alloc)?, *place, right.copy(alloc)?))
            }
        }
    }
}

impl Copied for Header {
    fn copy(&self, alloc: Global) -> Result<Header, AllocError> {
        Ok(Header {
            generics: copy_list(alloc, &self.generics)?,
            parameters: copy_list(alloc, &self.parameters)?,
            result: copy_option(alloc, &self.result)?,
            requirements: copy_list(alloc, &self.requirements)?,
        })
    }
}

impl Copied for Accessors {
    fn copy(&self, alloc: Global) -> Result<Accessors, AllocError> {
        match self {
            Accessors::Stored => Ok(Accessors::Stored),
            Accessors::Get => Ok(Accessors::Get),
            Accessors::GetSet => Ok(Accessors::GetSet),
            Accessors::Block(getter) => Ok(Accessors::Block(getter.copy(alloc)?)),
            Accessors::Blocks(getter, setter) => {
                Ok(Accessors::Blocks(getter.copy(alloc)?, copy_option(alloc, setter)?))
            }
        }
    }
}

impl Copied for Payload {
    fn copy(&self, alloc: Global) -> Result<Payload, AllocError> {
        Ok(Payload {
            label: copy_option(alloc, &self.label)?,
            type_name: self.type_name.copy(alloc)?,
        })
    }
}

fn copy_function(
    alloc: Global,
    name: &Identifier,
    header: &Header,
    body: &Option<Block>,
) -> Result<DeclKind, AllocError>
    ensures { IfOk result (λ copy. copy ≡ declared.Function name.now header.now body.now) }
{
    let name = name.copy(alloc)?;
    let header = header.copy(alloc)?;
    Ok(DeclKind::Function(name, header, copy_option(alloc, body)?))
}

fn copy_initialiser(
    alloc: Global,
    header: &Header,
    body: &Option<Block>,
) -> Result<DeclKind, AllocError>
    ensures { IfOk result (λ copy. copy ≡ declared.Initialiser header.now body.now) }
{
    let header = header.copy(alloc)?;
    Ok(DeclKind::Initialiser(header, copy_option(alloc, body)?))
}

fn copy_property(
    alloc: Global,
    introducer: Introducer,
    name: &Identifier,
    type_name: &TypeName,
    accessors: &Accessors,
) -> Result<DeclKind, AllocError>
    ensures { IfOk result (λ copy. copy ≡ declared.Property introducer name.now type_name.now accessors.now) }
{
    let name = name.copy(alloc)?;
    let type_name = type_name.copy(alloc)?;
    let accessors = accessors.copy(alloc)?;
    Ok(DeclKind::Property(introducer, name, type_name, accessors))
}

fn copy_alias(
    alloc: Global,
    name: &Identifier,
    type_name: &TypeName,
) -> Result<DeclKind, AllocError>
    ensures { IfOk result (λ copy. copy ≡ declared.TypeAlias name.now type_name.now) }
{
    let name = name.copy(alloc)?;
    Ok(DeclKind::TypeAlias(name, type_name.copy(alloc)?))
}

fn copy_associated(
    alloc: Global,
    name: &Identifier,
    protocols: &List<TypeName>,
    default: &Option<TypeName>,
) -> Result<DeclKind, AllocError>
    ensures { IfOk result (λ copy. copy ≡ declared.AssociatedType name.now protocols.now default.now) }
{
    let name = name.copy(alloc)?;
    let protocols = copy_list(alloc, protocols)?;
    let default = copy_option(alloc, default)?;
    Ok(DeclKind::AssociatedType(name, protocols, default))
}

fn copy_case(
    alloc: Global,
    name: &Identifier,
    payload: &List<Payload>,
) -> Result<DeclKind, AllocError>
    ensures { IfOk result (λ copy. copy ≡ declared.Case name.now payload.now) }
{
    let name = name.copy(alloc)?;
    Ok(DeclKind::Case(name, copy_list(alloc, payload)?))
}

fn copy_nominal(
    alloc: Global,
    kind: NominalKind,
    name: &Identifier,
    inherited: &List<TypeName>,
    members: Items<Decl>,
) -> Result<DeclKind, AllocError>
    ensures { IfOk result (λ copy. copy ≡ declared.Nominal kind name.now inherited.now members) }
{
    let name = name.copy(alloc)?;
    let inherited = copy_list(alloc, inherited)?;
    Ok(DeclKind::Nominal(kind, name, inherited, members))
}

fn copy_extension(
    alloc: Global,
    type_name: &TypeName,
    protocols: &List<TypeName>,
    members: Items<Decl>,
) -> Result<DeclKind, AllocError>
    ensures { IfOk result (λ copy. copy ≡ declared.Extension type_name.now protocols.now members) }
{
    let type_name = type_name.copy(alloc)?;
    let protocols = copy_list(alloc, protocols)?;
    Ok(DeclKind::Extension(type_name, protocols, members))
}

#[cycle(copies)]
fn copy_decls(alloc: Global, items: &Items<Decl>) -> Result<Items<Decl>, AllocError>
    ensures { IfOk result (λ copy. copy ≡ items.now) }
{
    let mut copies = Items::new(alloc);
    for decl in items.as_slice() {
        copies.push(copy_decl(alloc, decl)?)?;
    }
    Ok(copies)
}

#[cycle(copies)]
fn copy_decl(alloc: Global, decl: &Decl) -> Result<Decl, AllocError>
    ensures { IfOk result (λ copy. copy ≡ decl.now) }
{
    Ok(Decl {
        place: decl.place,
        attrs: copy_list(alloc, &decl.attrs)?,
        modifiers: copy_list(alloc, &decl.modifiers)?,
        kind: copy_kind(alloc, &decl.kind)?,
    })
}

#[cycle(copies)]
fn copy_kind(alloc: Global, kind: &DeclKind) -> Result<DeclKind, AllocError>
    ensures { IfOk result (λ copy. copy ≡ kind.now) }
{
    match kind {
        DeclKind::Function(name, header, body) => copy_function(alloc, name, header, body),
        DeclKind::Initialiser(header, body) => copy_initialiser(alloc, header, body),
        DeclKind::Property(introducer, name, type_name, accessors) => {
            copy_property(alloc, *introducer, name, type_name, accessors)
        }
        DeclKind::TypeAlias(name, type_name) => copy_alias(alloc, name, type_name),
        DeclKind::AssociatedType(name, protocols, default) => {
            copy_associated(alloc, name, protocols, default)
        }
        DeclKind::Case(name, payload) => copy_case(alloc, name, payload),
        DeclKind::Nominal(kind, name, inherited, members) => {
            let members = copy_decls(alloc, members)?;
            copy_nominal(alloc, *kind, name, inherited, members)
        }
        DeclKind::Extension(type_name, protocols, members) => {
            let members = copy_decls(alloc, members)?;
            copy_extension(alloc, type_name, protocols, members)
        }
    }
}

impl Copied for Decl {
    fn copy(&self, alloc: Global) -> Result<Decl, AllocError> {
        copy_decl(alloc, self)
    }
}

impl Copied for DeclKind {
    fn copy(&self, alloc: Global) -> Result<DeclKind, AllocError> {
        copy_kind(alloc, self)
    }
}
