//! Headers of functions and initialisers, and what types inherit.

ghost use Rattle.std.specs.Prelude.{◌≡◌, [], ◌∷◌, ℕ, List, IfOk};
ghost use Rattle.evo_combinators.specs.Reader.{Reads, one};
ghost use Rattle.evo_tree.specs.Declarations as grammar;
ghost use Rattle.evo_parse_header.specs.Read as spec;

use crate::parts::{Part, separated};
use crate::words::{expect_infix, mark_if};
use evo_base::{List, Place};
use evo_combinators::ReadError;
use evo_parse_expr::{Cursor, too_deep, type_name};
use evo_tree::{
    GenericParameter, Header, Identifier, Parameter, ParameterLabel, Requirement, Scope, Terminal,
    TypeName,
};
use std::alloc::Global;

fn empty<T>(alloc: Global) -> List<T>
    ensures { result ≡ [] }
{
    List::from_vec(Vec::new(alloc))
}

#[tactic(auto, unfolding(crate::specs::Read::protocols))]
fn protocols(alloc: Global, tokens: &mut Cursor<'_>) -> Result<List<TypeName>, ReadError>
    ensures { Reads (spec.protocols tokens.old) result tokens.new }
{
    separated(alloc, tokens, 0, Terminal::And)
}

/// What a type inherits or conforms to.
#[tactic(auto, unfolding(crate::specs::Read::inherited))]
pub fn inherited(alloc: Global, tokens: &mut Cursor<'_>) -> Result<List<TypeName>, ReadError>
    ensures { Reads (spec.inherited tokens.old) result tokens.new }
{
    if let Some(_) = tokens.mark(Terminal::Colon) {
        return separated(alloc, tokens, 0, Terminal::Comma);
    }
    Ok(empty(alloc))
}

/// The protocols to which a parameter or an associated type conforms.
#[tactic(auto, unfolding(crate::specs::Read::conforming))]
pub fn conforming(alloc: Global, tokens: &mut Cursor<'_>) -> Result<List<TypeName>, ReadError>
    ensures { Reads (spec.conforming tokens.old) result tokens.new }
{
    if let Some(_) = tokens.mark(Terminal::Colon) {
        return protocols(alloc, tokens);
    }
    Ok(empty(alloc))
}

#[tactic(auto, unfolding(crate::specs::Read::generic))]
fn generic(alloc: Global, tokens: &mut Cursor<'_>) -> Result<GenericParameter, ReadError>
    ensures { Reads (spec.generic tokens.old) result tokens.new }
{
    let name = tokens.expect_identifier(alloc)?;
    let protocols = conforming(alloc, tokens)?;
    Ok(GenericParameter { name, protocols })
}

impl Part for GenericParameter {
    ghost reader = { λ d. spec.generic };

    fn part(
        alloc: Global,
        tokens: &mut Cursor<'_>,
        _depth: u32,
    ) -> Result<GenericParameter, ReadError> {
        generic(alloc, tokens)
    }
}

#[tactic(auto, unfolding(crate::specs::Read::rest_of_requirement))]
fn rest_of_requirement(
    alloc: Global,
    tokens: &mut Cursor<'_>,
    first: TypeName,
) -> Result<Requirement, ReadError>
    ensures { Reads (spec.rest_of_requirement first tokens.old) result tokens.new }
{
    if let Some(_) = tokens.mark(Terminal::Colon) {
        let protocols = protocols(alloc, tokens)?;
        return Ok(Requirement::Conforms(first, protocols));
    }
    let place = expect_infix(tokens, Terminal::EqualEqual)?;
    let second = type_name(alloc, tokens)?;
    Ok(Requirement::Same(first, place, second))
}

#[tactic(auto, unfolding(crate::specs::Read::requirement_of))]
fn requirement(alloc: Global, tokens: &mut Cursor<'_>) -> Result<Requirement, ReadError>
    ensures { Reads (spec.requirement_of tokens.old) result tokens.new }
{
    let first = type_name(alloc, tokens)?;
    rest_of_requirement(alloc, tokens, first)
}

impl Part for Requirement {
    ghost reader = { λ d. spec.requirement_of };

    fn part(alloc: Global, tokens: &mut Cursor<'_>, _depth: u32) -> Result<Requirement, ReadError> {
        requirement(alloc, tokens)
    }
}

#[tactic(auto, unfolding(crate::specs::Read::rest_of_parameter))]
fn rest_of_parameter(
    alloc: Global,
    tokens: &mut Cursor<'_>,
    place: Place,
    label: ParameterLabel,
    name: Identifier,
) -> Result<Parameter, ReadError>
    ensures { Reads (spec.rest_of_parameter place label name tokens.old) result tokens.new }
{
    tokens.expect_mark(Terminal::Colon)?;
    let type_name = type_name(alloc, tokens)?;
    Ok(Parameter {
        place,
        label,
        name,
        type_name,
    })
}

#[tactic(auto, unfolding(crate::specs::Read::labelled_parameter))]
fn labelled_parameter(
    alloc: Global,
    tokens: &mut Cursor<'_>,
    first: Identifier,
) -> Result<Parameter, ReadError>
    ensures { Reads (spec.labelled_parameter first tokens.old) result tokens.new }
{
    let place = first.place;
    match tokens.identifier(alloc)? {
        Some(name) => {
            rest_of_parameter(alloc, tokens, place, ParameterLabel::Written(first), name)
        }
        None => rest_of_parameter(alloc, tokens, place, ParameterLabel::Same, first),
    }
}

#[tactic(auto, unfolding(crate::specs::Read::parameter_of))]
fn parameter(alloc: Global, tokens: &mut Cursor<'_>) -> Result<Parameter, ReadError>
    ensures { Reads (spec.parameter_of tokens.old) result tokens.new }
{
    if let Some(place) = tokens.mark(Terminal::Underscore) {
        let name = tokens.expect_identifier(alloc)?;
        return rest_of_parameter(alloc, tokens, place, ParameterLabel::Blank, name);
    }
    let first = tokens.expect_identifier(alloc)?;
    labelled_parameter(alloc, tokens, first)
}

impl Part for Parameter {
    ghost reader = { λ d. spec.parameter_of };

    fn part(alloc: Global, tokens: &mut Cursor<'_>, _depth: u32) -> Result<Parameter, ReadError> {
        parameter(alloc, tokens)
    }
}

#[tactic(auto, unfolding(crate::specs::Read::listed_parameters))]
fn listed_parameters(alloc: Global, tokens: &mut Cursor<'_>) -> Result<List<Parameter>, ReadError>
    ensures { Reads (spec.listed_parameters tokens.old) result tokens.new }
{
    let found = separated(alloc, tokens, 0, Terminal::Comma)?;
    tokens.expect_mark(Terminal::CloseParenthesis)?;
    Ok(found)
}

/// The parameters in their parentheses.
#[tactic(auto, unfolding(crate::specs::Read::parameters))]
fn parameters(
    alloc: Global,
    tokens: &mut Cursor<'_>,
    depth: u32,
) -> Result<List<Parameter>, ReadError>
    ensures { Reads (spec.parameters depth tokens.old) result tokens.new }
{
    let left = tokens.left();
    let Some(_) = tokens.mark(Terminal::OpenParenthesis) else {
        return Err(tokens.refused());
    };
    if depth == 0 {
        return Err(too_deep(left));
    }
    if let Some(_) = tokens.mark(Terminal::CloseParenthesis) {
        return Ok(empty(alloc));
    }
    listed_parameters(alloc, tokens)
}

fn is_void(type_name: &TypeName) -> bool
    ensures { result ≡ grammar.is_void type_name.now.names }
{
    match type_name.names.as_slice() {
        [name] => name.as_slice() == b"Void".as_slice(),
        _ => false,
    }
}

/// The result of a function, where one is written.
#[tactic(auto, unfolding(crate::specs::Read::result))]
fn result_type(
    alloc: Global,
    tokens: &mut Cursor<'_>,
    depth: u32,
) -> Result<Option<TypeName>, ReadError>
    ensures { Reads (spec.result depth tokens.old) result tokens.new }
{
    let left = tokens.left();
    if let Some(_) = tokens.mark(Terminal::OpenParenthesis) {
        if depth == 0 {
            return Err(too_deep(left));
        }
        tokens.expect_mark(Terminal::CloseParenthesis)?;
        return Ok(None);
    }
    let found = type_name(alloc, tokens)?;
    if is_void(&found) {
        return Ok(None);
    }
    Ok(Some(found))
}

/// Whether what is declared here stands in a protocol.
pub fn is_protocol(scope: Scope) -> bool
    ensures { result ≡ grammar.is_protocol scope }
{
    match scope {
        Scope::Protocol => true,
        _ => false,
    }
}

#[tactic(auto, unfolding(crate::specs::Read::generics))]
fn generics(
    alloc: Global,
    tokens: &mut Cursor<'_>,
    scope: Scope,
) -> Result<List<GenericParameter>, ReadError>
    ensures { Reads (spec.generics scope tokens.old) result tokens.new }
{
    let Some(_) = mark_if(tokens, !is_protocol(scope), Terminal::Less) else {
        return Ok(empty(alloc));
    };
    let found = separated(alloc, tokens, 0, Terminal::Comma)?;
    tokens.expect_mark(Terminal::Greater)?;
    Ok(found)
}

#[tactic(auto, unfolding(crate::specs::Read::returns))]
fn returns(
    alloc: Global,
    tokens: &mut Cursor<'_>,
    depth: u32,
    may: bool,
) -> Result<Option<TypeName>, ReadError>
    ensures { Reads (spec.returns depth may tokens.old) result tokens.new }
{
    let Some(_) = mark_if(tokens, may, Terminal::Arrow) else {
        return Ok(None);
    };
    result_type(alloc, tokens, depth)
}

#[tactic(auto, unfolding(crate::specs::Read::requirements))]
fn requirements(
    alloc: Global,
    tokens: &mut Cursor<'_>,
    scope: Scope,
) -> Result<List<Requirement>, ReadError>
    ensures { Reads (spec.requirements scope tokens.old) result tokens.new }
{
    let Some(_) = mark_if(tokens, !is_protocol(scope), Terminal::Where) else {
        return Ok(empty(alloc));
    };
    separated(alloc, tokens, 0, Terminal::Comma)
}

/// The header of a function, which may have a result, or of an initialiser.
#[tactic(auto, unfolding(crate::specs::Read::header_of))]
pub fn header(
    alloc: Global,
    tokens: &mut Cursor<'_>,
    depth: u32,
    scope: Scope,
    may: bool,
) -> Result<Header, ReadError>
    ensures { Reads (spec.header_of scope depth may tokens.old) result tokens.new }
{
    let generics = generics(alloc, tokens, scope)?;
    let parameters = parameters(alloc, tokens, depth)?;
    let result = returns(alloc, tokens, depth, may)?;
    let requirements = requirements(alloc, tokens, scope)?;
    Ok(Header {
        generics,
        parameters,
        result,
        requirements,
    })
}
