//! Rules, and what breaks them.

ghost use Rattle.std.specs.Prelude.{◌≡◌, IfOk};
ghost use Rattle.evo_breaks.specs.Rules as rules;

use evo_base::Key;
use std::alloc::{AllocError, Global};

/// A rule of evolution. The report writes each with its number, from E1 to E19, in this order.
#[derive(Clone, Copy, PartialEq, Eq)]
pub enum Rule {
    DeclarationRemoved,
    KindChanged,
    AccessLowered,
    SignatureChanged,
    PropertyChanged,
    FrozenChanged,
    FrozenStorageChanged,
    FrozenCasesChanged,
    CaseChanged,
    ClassFinalityChanged,
    SuperclassLost,
    OpenOrFinalChanged,
    RequirementChanged,
    RequirementWithoutDefault,
    AssociatedTypeChanged,
    InheritedProtocolsChanged,
    ConformanceChanged,
    IntroducedLater,
    ModuleNameDiffers,
}

/// A side of a break: the module itself, or something that it declares.
#[derive(Drop)]
pub enum Side {
    Module,
    Declared(Key),
}

/// A broken rule, with its sides in the old and in the new interface.
#[derive(Drop)]
pub struct Break {
    pub rule: Rule,
    pub old: Side,
    pub new: Side,
}

/// A break with a declaration on each side.
pub(crate) fn between(alloc: Global, rule: Rule, old: &Key, new: &Key) -> Result<Break, AllocError>
    ensures { IfOk result (λ found. found ≡ rules.between rule old.now new.now) }
{
    Ok(Break {
        rule,
        old: Side::Declared(old.copy(alloc)?),
        new: Side::Declared(new.copy(alloc)?),
    })
}
