//! The words of operators, modifiers and the like.

ghost use Rattle.std.specs.Prelude.{◌≡◌};
ghost use Rattle.evo_tree.specs.Canonical as spec;

use evo_tree::{
    AssignmentOperator, InfixOperator, Introducer, ModifierKind, NominalKind, PrefixOperator,
};

pub(crate) fn boolean(value: bool) -> &'static [u8]
    ensures { result.now ≡ spec.boolean_text value }
{
    if value { b"true" } else { b"false" }
}

pub(crate) fn prefix(operator: PrefixOperator) -> &'static [u8]
    ensures { result.now ≡ spec.prefix_text operator }
{
    match operator {
        PrefixOperator::Minus => b"-",
        PrefixOperator::Not => b"!",
    }
}

pub(crate) fn infix(operator: InfixOperator) -> &'static [u8]
    ensures { result.now ≡ spec.infix_text operator }
{
    match operator {
        InfixOperator::Or => b"||",
        InfixOperator::And => b"&&",
        InfixOperator::Equal => b"==",
        InfixOperator::NotEqual => b"!=",
        InfixOperator::Less => b"<",
        InfixOperator::LessOrEqual => b"<=",
        InfixOperator::Greater => b">",
        InfixOperator::GreaterOrEqual => b">=",
        InfixOperator::Identical => b"===",
        InfixOperator::NotIdentical => b"!==",
        InfixOperator::Add => b"+",
        InfixOperator::Subtract => b"-",
        InfixOperator::WrappingAdd => b"&+",
        InfixOperator::WrappingSubtract => b"&-",
        InfixOperator::Multiply => b"*",
        InfixOperator::Divide => b"/",
        InfixOperator::Remainder => b"%",
        InfixOperator::WrappingMultiply => b"&*",
    }
}

pub(crate) fn introducer(introducer: Introducer) -> &'static [u8]
    ensures { result.now ≡ spec.introducer_text introducer }
{
    match introducer {
        Introducer::Let => b"let ",
        Introducer::Var => b"var ",
    }
}

pub(crate) fn assignment(operator: AssignmentOperator) -> &'static [u8]
    ensures { result.now ≡ spec.assignment_text operator }
{
    match operator {
        AssignmentOperator::Assign => b"=",
        AssignmentOperator::Add => b"+=",
        AssignmentOperator::Subtract => b"-=",
        AssignmentOperator::Multiply => b"*=",
        AssignmentOperator::Divide => b"/=",
        AssignmentOperator::Remainder => b"%=",
    }
}

pub(crate) fn modifier(kind: ModifierKind) -> &'static [u8]
    ensures { result.now ≡ spec.modifier_text kind }
{
    match kind {
        ModifierKind::Open => b"open ",
        ModifierKind::Public => b"public ",
        ModifierKind::Internal => b"internal ",
        ModifierKind::Private => b"private ",
        ModifierKind::Final => b"final ",
        ModifierKind::Static => b"static ",
        ModifierKind::Override => b"override ",
        ModifierKind::Mutating => b"mutating ",
    }
}

pub(crate) fn nominal(kind: NominalKind) -> &'static [u8]
    ensures { result.now ≡ spec.nominal_text kind }
{
    match kind {
        NominalKind::Struct => b"struct ",
        NominalKind::Enum => b"enum ",
        NominalKind::Class => b"class ",
        NominalKind::Protocol => b"protocol ",
    }
}
