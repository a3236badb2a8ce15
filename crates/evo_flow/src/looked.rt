//! What a `switch` looks at, by the type of its value.

ghost use Rattle.std.specs.Prelude.{◌≡◌};
ghost use Rattle.evo_flow.specs.Scenes as spec;
ghost use Rattle.evo_flow.specs.Subjects.{subject_view};
ghost use Rattle.evo_resolved.specs.declared.expression.RMember.{out-RMember};
ghost use Rattle.evo_resolved.specs.declared.resolved_type.RType.TheVariants as ty;
ghost use Rattle.evo_flow.specs.Types.{last_type, member_type, signed, type_of};
ghost use Rattle.evo_names.specs.Typing.{literal_type};

use evo_base::Key;
use evo_resolved::{Literal, RExpr, RMember, RType};
use evo_tree::PrefixOperator;

/// What a `switch` looks at.
#[derive(Clone, Copy)]
pub enum Subject<'a> {
    /// A `Bool`.
    Truth,
    /// A type that is declared.
    Declared(&'a Key),
    /// A value with no cases.
    Other,
}

fn by_key<'a>(key: &'a Key) -> Subject<'a>
    ensures { subject_view result ≡ spec.key_subject key.now }
{
    if key.module.as_slice() != b"Swift".as_slice() {
        return Subject::Declared(key);
    }
    if key.base.as_slice() == b"Bool".as_slice() {
        return Subject::Truth;
    }
    Subject::Other
}

fn by_type<'a>(of: &'a RType) -> Subject<'a>
    ensures { subject_view result ≡ spec.subject_of of.now }
{
    match of {
        RType::Named(key) => by_key(key),
        _ => Subject::Other,
    }
}

fn by_literal<'a>(literal: &'a Literal) -> Subject<'a>
    ensures { subject_view result ≡ spec.subject_of (literal_type literal.now) }
{
    match literal {
        Literal::Boolean(_) => Subject::Truth,
        Literal::Integer(_) => Subject::Other,
        Literal::String(_) => Subject::Other,
    }
}

fn by_sign<'a>(operator: PrefixOperator) -> Subject<'a>
    ensures { subject_view result ≡ spec.subject_of (signed operator) }
{
    match operator {
        PrefixOperator::Not => Subject::Truth,
        PrefixOperator::Minus => Subject::Other,
    }
}

fn by_member<'a>(member: &'a RMember) -> Subject<'a>
    ensures { subject_view result ≡ spec.subject_of (member_type member.now) }
{
    match member {
        RMember::Property(used) => by_type(&used.ty),
        RMember::Called(applied) => by_type(&applied.0.ty),
        RMember::Mutated(_, applied) => by_type(&applied.0.ty),
    }
}

fn by_members<'a>(members: &'a [RMember]) -> Subject<'a>
    ensures { subject_view result ≡ spec.subject_of (last_type ty.NoValue members.now) }
{
    let count = members.len();
    if count == 0 {
        return Subject::Other;
    }
    by_member(&members[count - 1])
}

/// What a `switch` over this value looks at.
pub(crate) fn looked_at<'a>(value: &'a RExpr) -> Subject<'a>
    ensures { subject_view result ≡ spec.subject_of (type_of value.now) }
{
    match value {
        RExpr::Literal(literal) => by_literal(literal),
        RExpr::Local(_, _, of) => by_type(of),
        RExpr::SelfValue(_, of) => by_type(of),
        RExpr::Upcast(_, of) => by_type(of),
        RExpr::Prefix(operator, _) => by_sign(*operator),
        RExpr::Chain(_, _, of) => by_type(of),
        RExpr::Members(_, members) => by_members(members.as_slice()),
        RExpr::Mutate(_, _, applied) => by_type(&applied.0.ty),
        RExpr::Case(applied) => by_type(&applied.0.ty),
        RExpr::New(applied) => by_type(&applied.0.ty),
        RExpr::Call(applied) => by_type(&applied.0.ty),
        RExpr::Super(applied) => by_type(&applied.0.ty),
        RExpr::Builtin(_, _, _) => Subject::Other,
    }
}
