//! Copies of types, paths and uses.

ghost use Rattle.std.specs.Prelude.{◌≡◌, IfOk};

use crate::copy::{Copied, copy_list, copy_option};
use crate::expression::RUse;
use crate::path::{ConfPath, ConfStart};
use crate::resolved_type::{RReference, RType, RTypeName};
use evo_base::{Key, List};
use std::alloc::{AllocError, Global};

impl Copied for RType {
    fn copy(&self, alloc: Global) -> Result<RType, AllocError> {
        match self {
            RType::Named(key) => Ok(RType::Named(key.copy(alloc)?)),
            RType::Param(number) => Ok(RType::Param(*number)),
            RType::Assoc(number, names) => Ok(RType::Assoc(*number, names.copy(alloc)?)),
            RType::NoValue => Ok(RType::NoValue),
        }
    }
}

impl Copied for RTypeName {
    fn copy(&self, alloc: Global) -> Result<RTypeName, AllocError> {
        Ok(RTypeName {
            place: self.place,
            aliases: copy_list(alloc, &self.aliases)?,
            ty: self.ty.copy(alloc)?,
        })
    }
}

impl Copied for RReference {
    fn copy(&self, alloc: Global) -> Result<RReference, AllocError> {
        Ok(RReference {
            place: self.place,
            key: self.key.copy(alloc)?,
        })
    }
}

impl Copied for ConfStart {
    fn copy(&self, alloc: Global) -> Result<ConfStart, AllocError> {
        match self {
            ConfStart::Required(number) => Ok(ConfStart::Required(*number)),
            ConfStart::Declared(key) => Ok(ConfStart::Declared(key.copy(alloc)?)),
        }
    }
}

impl Copied for ConfPath {
    fn copy(&self, alloc: Global) -> Result<ConfPath, AllocError> {
        Ok(ConfPath {
            start: self.start.copy(alloc)?,
            steps: copy_list(alloc, &self.steps)?,
        })
    }
}

// What a use names, and the type before it.
fn copy_named(alloc: Global, used: &RUse) -> Result<(Key, Option<RTypeName>), AllocError>
    ensures { IfOk result (λ copy. copy ≡ (used.now.key, used.now.written)) }
{
    let key = used.key.copy(alloc)?;
    Ok((key, copy_option(alloc, &used.written)?))
}

// What the parameters of a use stand for.
fn copy_instance(alloc: Global, used: &RUse) -> Result<(List<RType>, List<ConfPath>), AllocError>
    ensures { IfOk result (λ copy. copy ≡ (used.now.types, used.now.paths)) }
{
    let types = copy_list(alloc, &used.types)?;
    Ok((types, copy_list(alloc, &used.paths)?))
}

impl Copied for RUse {
    fn copy(&self, alloc: Global) -> Result<RUse, AllocError> {
        let (key, written) = copy_named(alloc, self)?;
        let (types, paths) = copy_instance(alloc, self)?;
        Ok(RUse {
            place: self.place,
            key,
            reach: self.reach,
            written,
            types,
            paths,
            ty: self.ty.copy(alloc)?,
        })
    }
}
