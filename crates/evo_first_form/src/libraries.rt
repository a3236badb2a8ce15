//! Libraries, from modules.

ghost use Rattle.std.specs.Prelude.{◌≡◌, IfOk};
ghost use Rattle.evo_first_form.specs.FirstForm as spec;

use crate::only::only;
use crate::terms::term_of;
use crate::words::is_name;
use crate::{Access, Function, Term};
use evo_base::{List, Name};
use evo_tree::{
    Attr, AttrKind, Block, Decl, DeclKind, Header, Item, Modifier, ModifierKind, Module,
    ModuleTree, Stmt, TypeName,
};
use std::alloc::{AllocError, Global};

fn access_of(attrs: &[Attr], modifiers: &[Modifier]) -> Option<Access>
    ensures { result ≡ spec.access_of attrs.now modifiers.now }
{
    let modifier = only(modifiers)?;
    match (attrs, modifier.kind) {
        ([], ModifierKind::Internal) => Some(Access::Internal),
        ([], ModifierKind::Public) => Some(Access::Public),
        ([attr], ModifierKind::Public) if attr.kind == AttrKind::Inlinable => {
            Some(Access::Inlinable)
        }
        _ => None,
    }
}

fn is_int(result_type: &Option<TypeName>) -> bool
    ensures { result ≡ spec.is_int result_type.now }
{
    match result_type {
        Some(name) => match only(name.names.as_slice()) {
            Some(name) => name.as_slice() == b"Int".as_slice(),
            None => false,
        },
        None => false,
    }
}

fn is_signature(header: &Header) -> bool
    ensures { result ≡ spec.is_signature header.now }
{
    header.generics.as_slice().is_empty()
        && header.parameters.as_slice().is_empty()
        && header.requirements.as_slice().is_empty()
        && is_int(&header.result)
}

// The term of a statement that returns one.
fn returned_by(alloc: Global, statement: &Stmt) -> Result<Option<Term>, AllocError>
    ensures { IfOk result (λ found. found ≡ spec.returned_by statement.now) }
{
    match statement {
        Stmt::Return(_, Some(value)) => term_of(alloc, value),
        _ => Ok(None),
    }
}

// The term of a body that does nothing but return one.
fn body_of(alloc: Global, block: &Option<Block>) -> Result<Option<Term>, AllocError>
    ensures { IfOk result (λ found. found ≡ spec.body_of block.now) }
{
    let Some(block) = block else {
        return Ok(None);
    };
    match only(block.statements.as_slice()) {
        Some(statement) => returned_by(alloc, statement),
        None => Ok(None),
    }
}

// A function, by its access and its parts.
fn named_function(
    alloc: Global,
    access: Access,
    name: &Name,
    header: &Header,
    block: &Option<Block>,
) -> Result<Option<Function>, AllocError>
    ensures { IfOk result (λ found. found ≡ spec.named_function access name.now header.now block.now) }
{
    if !is_name(name.as_slice()) || !is_signature(header) {
        return Ok(None);
    }
    match body_of(alloc, block)? {
        Some(body) => Ok(Some(Function {
            access,
            name: name.copy(alloc)?,
            body,
        })),
        None => Ok(None),
    }
}

fn function_of(alloc: Global, decl: &Decl) -> Result<Option<Function>, AllocError>
    ensures { IfOk result (λ found. found ≡ spec.function_of decl.now) }
{
    let Some(access) = access_of(decl.attrs.as_slice(), decl.modifiers.as_slice()) else {
        return Ok(None);
    };
    match &decl.kind {
        DeclKind::Function(name, header, block) => {
            named_function(alloc, access, &name.text, header, block)
        }
        _ => Ok(None),
    }
}

#[tactic(auto, unfolding(crate::specs::FirstForm::function_at))]
fn function_at(alloc: Global, item: &Item) -> Result<Option<Function>, AllocError>
    ensures { IfOk result (λ found. found ≡ spec.function_at item.now) }
{
    match item {
        Item::Decl(decl) => function_of(alloc, decl.get()),
        Item::Stmt(_) => Ok(None),
    }
}

fn functions_of(alloc: Global, items: &[Item]) -> Result<Option<List<Function>>, AllocError>
    ensures { IfOk result (λ found. found ≡ spec.each_of spec.function_at items.now) }
{
    let mut functions = Vec::new(alloc);
    for item in items {
        let Some(function) = function_at(alloc, item)? else {
            return Ok(None);
        };
        functions.push(function)?;
    }
    Ok(Some(List::from_vec(functions)))
}

// The library that a tree is.
fn library_in(alloc: Global, tree: &ModuleTree) -> Result<Option<List<Function>>, AllocError>
    ensures { IfOk result (λ found. found ≡ spec.library_of tree.now) }
{
    if tree.imports.as_slice().is_empty() {
        functions_of(alloc, tree.items.as_slice())
    } else {
        Ok(None)
    }
}

/// The library that a module is, where it is one of the first form.
pub fn library_of(alloc: Global, module: &Module) -> Result<Option<List<Function>>, AllocError>
    ensures { IfOk result (λ found. found ≡ spec.library_of «module».now) }
{
    library_in(alloc, module.tree())
}
