//! Members in braces.

ghost use Rattle.std.specs.Prelude.{◌≡◌, ◌∷◌, [], ◌<◌, ◌&&◌, ◌||◌, ℕ, List, Bool, true, IfOk};
ghost use Rattle.std.specs.Option.{is_some};
ghost use Rattle.evo_combinators.specs.Guard.{starts, run};
ghost use Rattle.evo_combinators.specs.Reader.{Reads};
ghost use Rattle.evo_tree.specs.Declarations as grammar;
ghost use Rattle.evo_parse_expr.specs.Read.{after};
ghost use Rattle.evo_parse_decl.specs.Read as spec;
ghost use Rattle.evo_parse_decl.specs.Closed.{block_at, member_at};

use crate::decl::{all_declared, joined};
use crate::kind::{is_enum, may_be_stored, may_stand, member_kind};
use evo_base::List;
use evo_combinators::ReadError;
use evo_parse_expr::{Cursor, Lexeme, too_deep};
use evo_parse_header::{attributes, is_modifier, is_protocol, modifiers};
use evo_tree::{Decl, Scope, Terminal};
use sqlite_items::Items;
use std::alloc::Global;

// A declaration in braces, of which one with several cases makes several.
#[tactic(auto, unfolding(crate::specs::Read::declaration_of))]
fn member(
    alloc: Global,
    tokens: &mut Cursor<'_>,
    depth: u32,
    interface: bool,
    scope: Scope,
) -> Result<List<Decl>, ReadError>
    ensures { Reads (member_at interface scope depth tokens.old) result tokens.new }
{
    let attrs = attributes(alloc, tokens, depth)?;
    let modifiers = modifiers(alloc, tokens)?;
    let kinds = member_kind(alloc, tokens, depth, interface, scope, attrs.as_slice())?;
    Ok(all_declared(alloc, scope, attrs.as_slice(), modifiers.as_slice(), kinds)?)
}

fn begins_kind(token: &Lexeme<'_>, interface: bool, scope: Scope) -> bool
    ensures { result ≡ spec.begins_kind interface scope [] token.now }
{
    let may = may_stand(interface, scope, &[]);
    let stored = may_be_stored(interface, scope, &[]);
    let in_type = !is_protocol(scope);
    may && token.is(Terminal::Func)
        || (in_type && token.is(Terminal::Init)
            || (may && token.is(Terminal::Var)
                || (stored && token.is(Terminal::Let)
                    || (in_type && token.is(Terminal::Typealias)
                        || (!in_type && token.is(Terminal::Associatedtype)
                            || is_enum(scope) && token.is(Terminal::Case))))))
}

#[tactic(auto, unfolding(crate::specs::Read::begins_member))]
fn begins_member(token: &Lexeme<'_>, interface: bool, scope: Scope) -> bool
    ensures { result ≡ spec.begins_member interface scope token.now }
{
    token.is(Terminal::At) || (is_modifier(token, &[]) || begins_kind(token, interface, scope))
}

#[tactic(auto, unfolding(evo_combinators::specs::Guard::starts))]
fn starts_member(tokens: &Cursor<'_>, interface: bool, scope: Scope) -> bool
    ensures { result ≡ starts (spec.begins_member interface scope) tokens.now }
{
    match tokens.next() {
        Some((token, _)) => begins_member(token, interface, scope),
        None => false,
    }
}

#[tactic(auto, unfolding(evo_combinators::specs::Guard::starts))]
fn starts_next(tokens: &Cursor<'_>, interface: bool, scope: Scope) -> bool
    ensures { result ≡ starts (spec.goes_on (spec.begins_member interface scope)) tokens.now }
{
    match tokens.next() {
        Some((token, _)) => {
            token.is(Terminal::Semicolon) || token.below() && begins_member(token, interface, scope)
        }
        None => false,
    }
}

/// Whether the first token stands on a later line than the one before it.
#[tactic(auto, unfolding(evo_combinators::specs::Guard::starts))]
pub fn starts_below(tokens: &Cursor<'_>) -> bool
    ensures { result ≡ starts (λ u. u.below) tokens.now }
{
    match tokens.next() {
        Some((token, _)) => token.below(),
        None => false,
    }
}

#[tactic(auto, unfolding(crate::specs::Read::next))]
fn next_member(
    alloc: Global,
    tokens: &mut Cursor<'_>,
    depth: u32,
    interface: bool,
    scope: Scope,
) -> Result<List<Decl>, ReadError>
    ensures { Reads (spec.next (member_at interface scope depth) tokens.old) result tokens.new }
{
    if let Some(_) = tokens.mark(Terminal::Semicolon) {
        return member(alloc, tokens, depth, interface, scope);
    }
    if starts_below(tokens) {
        return member(alloc, tokens, depth, interface, scope);
    }
    Err(tokens.refused())
}

// A member, and those behind it.
fn further_members(
    alloc: Global,
    first: List<Decl>,
    tokens: &mut Cursor<'_>,
    depth: u32,
    interface: bool,
    scope: Scope,
) -> Result<List<List<Decl>>, ReadError>
    ensures { Reads (after first (run (λ _. spec.goes_on (spec.begins_member interface scope)) (λ _. spec.next (member_at interface scope depth)) (λ u _. u) true) tokens.old) result tokens.new }
{
    let mut found = Vec::new(alloc);
    found.push(first)?;
    for _turn in 0..tokens.left() {
        if !starts_next(tokens, interface, scope) {
            return Ok(List::from_vec(found));
        }
        found.push(next_member(alloc, tokens, depth, interface, scope)?)?;
    }
    Ok(List::from_vec(found))
}

#[tactic(auto, unfolding(crate::specs::Read::lines))]
fn lines(
    alloc: Global,
    tokens: &mut Cursor<'_>,
    depth: u32,
    interface: bool,
    scope: Scope,
) -> Result<List<List<Decl>>, ReadError>
    ensures { Reads (spec.lines (spec.begins_member interface scope) (member_at interface scope depth) tokens.old) result tokens.new }
{
    if !starts_member(tokens, interface, scope) {
        return Ok(List::from_vec(Vec::new(alloc)));
    }
    let first = member(alloc, tokens, depth, interface, scope)?;
    further_members(alloc, first, tokens, depth, interface, scope)
}

// The members within braces.
#[tactic(auto, unfolding(crate::specs::Read::are_members))]
fn inner_members(
    alloc: Global,
    tokens: &mut Cursor<'_>,
    depth: u32,
    interface: bool,
    scope: Scope,
) -> Result<Items<Decl>, ReadError>
    ensures { Reads (spec.are_members block_at interface scope depth tokens.old) result tokens.new }
{
    let found = lines(alloc, tokens, depth, interface, scope)?;
    Ok(joined(alloc, found)?)
}

// What stands within braces that are open.
fn within(
    alloc: Global,
    tokens: &mut Cursor<'_>,
    depth: u32,
    interface: bool,
    scope: Scope,
) -> Result<Items<Decl>, ReadError>
    requires { 0 < depth }
    ensures { Reads (spec.within (spec.are_members block_at interface scope) depth tokens.old) result tokens.new }
{
    inner_members(alloc, tokens, depth - 1, interface, scope)
}

/// Members in their braces.
#[tactic(auto, unfolding(crate::specs::Read::members))]
pub(crate) fn members(
    alloc: Global,
    tokens: &mut Cursor<'_>,
    depth: u32,
    interface: bool,
    scope: Scope,
) -> Result<Items<Decl>, ReadError>
    ensures { Reads (spec.members block_at interface depth scope tokens.old) result tokens.new }
{
    let left = tokens.left();
    let Some(_) = tokens.mark(Terminal::OpenBrace) else {
        return Err(tokens.refused());
    };
    if depth == 0 {
        return Err(too_deep(left));
    }
    let found = within(alloc, tokens, depth, interface, scope)?;
    tokens.expect_mark(Terminal::CloseBrace)?;
    Ok(found)
}
