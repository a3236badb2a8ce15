//! Copies of declarations.

ghost use Rattle.std.specs.Prelude.{◌≡◌, IfOk};
ghost use Rattle.evo_resolved.specs.declared.declaration.RDeclKind.TheVariants as declared;

use crate::copy::{Copied, copy_list, copy_option};
use crate::declaration::{
    RDecl, RDeclKind, RHeader, RParameter, RPayload, RRequirement, Signature, Standing,
};
use crate::resolved_type::{RReference, RTypeName};
use evo_base::List;
use evo_tree::NominalKind;
use std::alloc::{AllocError, Global};

impl Copied for RRequirement {
    fn copy(&self, alloc: Global) -> Result<RRequirement, AllocError> {
        match self {
            RRequirement::Conforms(subject, protocol) => Ok(RRequirement::Conforms(
                subject.copy(alloc)?,
                protocol.copy(alloc)?,
            )),
            RRequirement::Same(left, place, right) => {
                Ok(RRequirement::Same(left.copy(alloc)?, *place, right.copy(alloc)?))
            }
        }
    }
}

impl Copied for Signature {
    fn copy(&self, alloc: Global) -> Result<Signature, AllocError> {
        Ok(Signature {
            protocol: copy_option(alloc, &self.protocol)?,
            generics: copy_list(alloc, &self.generics)?,
            requirements: copy_list(alloc, &self.requirements)?,
        })
    }
}

impl Copied for RParameter {
    fn copy(&self, alloc: Global) -> Result<RParameter, AllocError> {
        Ok(RParameter {
            place: self.place,
            label: self.label.copy(alloc)?,
            name: self.name.copy(alloc)?,
            written: self.written.copy(alloc)?,
        })
    }
}

impl Copied for RHeader {
    fn copy(&self, alloc: Global) -> Result<RHeader, AllocError> {
        Ok(RHeader {
            signature: self.signature.copy(alloc)?,
            parameters: copy_list(alloc, &self.parameters)?,
            result: copy_option(alloc, &self.result)?,
        })
    }
}

impl Copied for RPayload {
    fn copy(&self, alloc: Global) -> Result<RPayload, AllocError> {
        Ok(RPayload {
            label: copy_option(alloc, &self.label)?,
            written: self.written.copy(alloc)?,
        })
    }
}

impl Copied for Standing {
    fn copy(&self, alloc: Global) -> Result<Standing, AllocError> {
        match self {
            Standing::TopLevel => Ok(Standing::TopLevel),
            Standing::Braces(kind, key) => Ok(Standing::Braces(*kind, key.copy(alloc)?)),
            Standing::Extension(kind, key) => Ok(Standing::Extension(*kind, key.copy(alloc)?)),
        }
    }
}

fn copy_associated(
    alloc: Global,
    protocols: &List<RReference>,
    default: &Option<RTypeName>,
) -> Result<RDeclKind, AllocError>
    ensures { IfOk result (λ copy. copy ≡ declared.AssociatedType protocols.now default.now) }
{
    let protocols = copy_list(alloc, protocols)?;
    Ok(RDeclKind::AssociatedType(protocols, copy_option(alloc, default)?))
}

fn copy_nominal(
    alloc: Global,
    kind: NominalKind,
    superclass: &Option<RReference>,
    protocols: &List<RReference>,
) -> Result<RDeclKind, AllocError>
    ensures { IfOk result (λ copy. copy ≡ declared.Nominal kind superclass.now protocols.now) }
{
    let superclass = copy_option(alloc, superclass)?;
    Ok(RDeclKind::Nominal(kind, superclass, copy_list(alloc, protocols)?))
}

fn copy_extension(
    alloc: Global,
    kind: NominalKind,
    extended: &RReference,
    protocols: &List<RReference>,
) -> Result<RDeclKind, AllocError>
    ensures { IfOk result (λ copy. copy ≡ declared.Extension kind extended.now protocols.now) }
{
    let extended = extended.copy(alloc)?;
    Ok(RDeclKind::Extension(kind, extended, copy_list(alloc, protocols)?))
}

impl Copied for RDeclKind {
    fn copy(&self, alloc: Global) -> Result<RDeclKind, AllocError> {
        match self {
            RDeclKind::Function(header) => Ok(RDeclKind::Function(header.copy(alloc)?)),
            RDeclKind::Initialiser(header) => Ok(RDeclKind::Initialiser(header.copy(alloc)?)),
            RDeclKind::Property(introducer, written, kept) => {
                Ok(RDeclKind::Property(*introducer, written.copy(alloc)?, *kept))
            }
            RDeclKind::TypeAlias(written) => Ok(RDeclKind::TypeAlias(written.copy(alloc)?)),
            RDeclKind::AssociatedType(protocols, default) => {
                copy_associated(alloc, protocols, default)
            }
            RDeclKind::Case(payload) => Ok(RDeclKind::Case(copy_list(alloc, payload)?)),
            RDeclKind::Nominal(kind, superclass, protocols) => {
                copy_nominal(alloc, *kind, superclass, protocols)
            }
            RDeclKind::Extension(kind, extended, protocols) => {
                copy_extension(alloc, *kind, extended, protocols)
            }
        }
    }
}

impl Copied for RDecl {
    fn copy(&self, alloc: Global) -> Result<RDecl, AllocError> {
        Ok(RDecl {
            place: self.place,
            name_place: self.name_place,
            key: self.key.copy(alloc)?,
            own: self.own.copy(alloc)?,
            standing: self.standing.copy(alloc)?,
            attrs: copy_list(alloc, &self.attrs)?,
            modifiers: copy_list(alloc, &self.modifiers)?,
            kind: self.kind.copy(alloc)?,
        })
    }
}
