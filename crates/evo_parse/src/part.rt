//! Reads what stands between two separators at the top level of a text.

ghost use Rattle.std.specs.Prelude.{◌≡◌, ◌∷◌, [], ℕ, List, Bool, IfOk, map};
ghost use Rattle.evo_combinators.specs.Attempt.{attempt, tries};
ghost use Rattle.evo_combinators.specs.Guard.{starts};
ghost use Rattle.evo_combinators.specs.Reader.{Reads, Gives, with_front};
ghost use Rattle.evo_tree.specs.declared.module.Item.TheVariants as item;
ghost use Rattle.evo_tree.specs.Modules as grammar;
ghost use Rattle.evo_parse_decl.specs.Read as read;
ghost use Rattle.evo_parse_decl.specs.Read.{begins_top};
ghost use Rattle.evo_parse_decl.specs.Closed.{block_at, stmt_at};
ghost use Rattle.evo_parse_decl.specs.ReadModules as spec;
ghost use Rattle.evo_parse.specs.Contract.{all_of, is_client as the_client};

use evo_base::List;
use evo_combinators::ReadError;
use evo_parse_decl::{begins_declaration, declaration, starts_below};
use evo_parse_expr::{Cursor, is_refusal};
use evo_parse_header::mark_if;
use evo_parse_stmt::statement;
use evo_tree::{Decl, Form, Identifier, Item, ModulePart, PartSpot, Stmt, Terminal};
use sqlite_items::Boxed;
use std::alloc::{AllocError, Global};

fn is_interface(form: &Form) -> bool
    ensures { result ≡ grammar.is_interface form.now }
{
    match form {
        Form::Interface => true,
        Form::Client | Form::Library(_) => false,
    }
}

fn is_client(form: &Form) -> bool
    ensures { result ≡ the_client form.now }
{
    match form {
        Form::Client => true,
        Form::Interface | Form::Library(_) => false,
    }
}

fn declared_items(alloc: Global, decls: List<Decl>) -> Result<List<Item>, AllocError>
    ensures { IfOk result (λ items. items ≡ map item.Decl decls) }
{
    let mut items = Vec::with_capacity(alloc, decls.as_slice().len())?;
    for decl in decls.into_vec() {
        items.push(Item::Decl(Boxed::new(alloc, decl)?))?;
    }
    Ok(List::from_vec(items))
}

// This alone, with no room for more: a client may have half a million statements.
fn alone<T: Drop>(alloc: Global, item: T) -> Result<List<T>, AllocError>
    ensures { IfOk result (λ items. items ≡ item ∷ []) }
{
    let mut items = Vec::with_capacity(alloc, 1)?;
    items.push(item)?;
    Ok(List::from_vec(items))
}

fn statement_item(alloc: Global, statement: Stmt) -> Result<List<Item>, AllocError>
    ensures { IfOk result (λ items. items ≡ item.Stmt statement ∷ []) }
{
    alone(alloc, Item::Stmt(statement))
}

// What a declaration makes.
#[tactic(auto, unfolding(evo_parse_decl::specs::ReadModules::declared))]
fn declared(
    alloc: Global,
    tokens: &mut Cursor<'_>,
    form: &Form,
    depth: u32,
) -> Result<List<Item>, ReadError>
    ensures { Reads (spec.declared block_at stmt_at form.now depth tokens.old) result tokens.new }
{
    let decls = declaration(alloc, tokens, depth, is_interface(form))?;
    Ok(declared_items(alloc, decls)?)
}

#[tactic(auto, unfolding(evo_combinators::specs::Guard::starts))]
fn starts_declaration(tokens: &Cursor<'_>) -> bool
    ensures { result ≡ starts begins_top tokens.now }
{
    match tokens.next() {
        Some((token, _)) => begins_declaration(token),
        None => false,
    }
}

// What a declaration or, in a client, a statement makes.
#[tactic(auto, unfolding(evo_parse_decl::specs::ReadModules::items_of))]
fn items(
    alloc: Global,
    tokens: &mut Cursor<'_>,
    form: &Form,
    depth: u32,
) -> Result<List<Item>, ReadError>
    ensures { Reads (spec.items_of block_at stmt_at form.now depth tokens.old) result tokens.new }
{
    if !is_client(form) {
        return declared(alloc, tokens, form, depth);
    }
    if starts_declaration(tokens) {
        return declared(alloc, tokens, form, depth);
    }
    let found = statement(alloc, tokens, depth, false)?;
    Ok(statement_item(alloc, found)?)
}

#[tactic(auto, unfolding(evo_parse_decl::specs::ReadModules::part_of))]
fn part(
    alloc: Global,
    tokens: &mut Cursor<'_>,
    form: &Form,
    depth: u32,
    may_import: bool,
) -> Result<ModulePart, ReadError>
    ensures { Reads (spec.part_of block_at stmt_at form.now depth may_import tokens.old) result tokens.new }
{
    if let Some(_) = mark_if(tokens, may_import, Terminal::Import) {
        return Ok(ModulePart::Import(tokens.expect_identifier(alloc)?));
    }
    Ok(ModulePart::Items(items(alloc, tokens, form, depth)?))
}

// A part behind a separator.
#[tactic(auto, unfolding(evo_parse_decl::specs::Read::next))]
fn next_part(
    alloc: Global,
    tokens: &mut Cursor<'_>,
    form: &Form,
    depth: u32,
    may_import: bool,
) -> Result<ModulePart, ReadError>
    ensures { Reads (read.next (spec.part_of block_at stmt_at form.now depth may_import) tokens.old) result tokens.new }
{
    if let Some(_) = tokens.mark(Terminal::Semicolon) {
        return part(alloc, tokens, form, depth, may_import);
    }
    if starts_below(tokens) {
        return part(alloc, tokens, form, depth, may_import);
    }
    Err(tokens.refused())
}

#[tactic(auto, unfolding(evo_parse_decl::specs::ReadModules::part_at))]
fn part_at(
    alloc: Global,
    tokens: &mut Cursor<'_>,
    form: &Form,
    depth: u32,
    spot: PartSpot,
) -> Result<ModulePart, ReadError>
    ensures { Reads (spec.part_at block_at stmt_at form.now depth spot tokens.old) result tokens.new }
{
    match spot {
        PartSpot::Leading => part(alloc, tokens, form, depth, true),
        PartSpot::Further(may_import) => next_part(alloc, tokens, form, depth, may_import),
    }
}

// A part, or nothing where the first token begins none.
fn try_part(
    alloc: Global,
    tokens: &mut Cursor<'_>,
    form: &Form,
    depth: u32,
    spot: PartSpot,
) -> Result<Option<ModulePart>, ReadError>
    ensures { Reads (attempt (spec.part_at block_at stmt_at form.now depth spot) tokens.old) result tokens.new }
{
    let start = tokens.copy();
    match part_at(alloc, tokens, form, depth, spot) {
        Ok(found) => Ok(Some(found)),
        Err(error) => {
            if !is_refusal(error, start.left()) {
                return Err(error);
            }
            *tokens = start;
            Ok(None)
        }
    }
}

// What stands behind this part.
fn behind(spot: PartSpot, part: &ModulePart) -> PartSpot
    ensures { result ≡ grammar.after_part spot part.now }
{
    match part {
        ModulePart::Items(_) => PartSpot::Further(false),
        ModulePart::Import(_) => match spot {
            PartSpot::Leading => PartSpot::Further(true),
            PartSpot::Further(may_import) => PartSpot::Further(may_import),
        },
    }
}

// The parts from here on, behind those that were found before.
fn further_parts(
    alloc: Global,
    before: Vec<ModulePart>,
    tokens: &mut Cursor<'_>,
    form: &Form,
    depth: u32,
    spot: PartSpot,
) -> Result<List<ModulePart>, ReadError>
    ensures { Reads (with_front before.items (tries (spec.part_at block_at stmt_at form.now depth) grammar.after_part spot tokens.old)) result tokens.new }
{
    let mut found = before;
    let mut at = spot;
    for _turn in 0..tokens.left() {
        let Some(part) = try_part(alloc, tokens, form, depth, at)? else {
            return Ok(List::from_vec(found));
        };
        at = behind(at, &part);
        found.push(part)?;
    }
    Ok(List::from_vec(found))
}

// The parts of an interface: an import, and what stands behind it.
#[tactic(auto, unfolding(evo_parse_decl::specs::ReadModules::parts, evo_parse_decl::specs::ReadModules::import_of))]
fn interface_parts(
    alloc: Global,
    tokens: &mut Cursor<'_>,
    form: &Form,
    depth: u32,
) -> Result<List<ModulePart>, ReadError>
    requires { form.now ≡ Form.Interface }
    ensures { Reads (spec.parts block_at stmt_at form.now depth tokens.old) result tokens.new }
{
    tokens.expect_mark(Terminal::Import)?;
    let name = tokens.expect_identifier(alloc)?;
    let mut found = Vec::new(alloc);
    found.push(ModulePart::Import(name))?;
    further_parts(alloc, found, tokens, form, depth, PartSpot::Further(false))
}

// The parts of a module.
#[tactic(auto, unfolding(evo_parse_decl::specs::ReadModules::parts))]
fn parts(
    alloc: Global,
    tokens: &mut Cursor<'_>,
    form: &Form,
    depth: u32,
) -> Result<List<ModulePart>, ReadError>
    ensures { Reads (spec.parts block_at stmt_at form.now depth tokens.old) result tokens.new }
{
    if is_interface(form) {
        return interface_parts(alloc, tokens, form, depth);
    }
    further_parts(
        alloc,
        Vec::new(alloc),
        tokens,
        form,
        depth,
        PartSpot::Leading,
    )
}

/// The parts that all tokens spell, or the first token with which none goes on.
pub(crate) fn all_parts(
    alloc: Global,
    tokens: &mut Cursor<'_>,
    form: &Form,
    depth: u32,
) -> Result<List<ModulePart>, ReadError>
    ensures { Gives (λ x. x) result (all_of (spec.parts block_at stmt_at form.now depth tokens.old)) }
{
    let found = parts(alloc, tokens, form, depth)?;
    if tokens.left() > 0 {
        return Err(tokens.refused());
    }
    Ok(found)
}

/// The names of imports and the items that some parts make.
pub(crate) fn split(
    alloc: Global,
    parts: List<ModulePart>,
) -> Result<(List<Identifier>, List<Item>), AllocError>
    ensures { IfOk result (λ x. (x.0 ≡ grammar.imports_of parts) × (x.1 ≡ grammar.items_of parts)) }
{
    let mut items = Vec::with_capacity(alloc, parts.as_slice().len())?;
    let mut imports = Vec::new(alloc);
    for part in parts.into_vec() {
        match part {
            ModulePart::Import(name) => imports.push(name)?,
            ModulePart::Items(more) => items.append(&mut more.into_vec())?,
        }
    }
    Ok((List::from_vec(imports), List::from_vec(items)))
}
