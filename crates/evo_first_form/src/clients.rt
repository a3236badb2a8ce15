//! Clients, from modules.

ghost use Rattle.std.specs.Prelude.{◌≡◌, IfOk};
ghost use Rattle.evo_first_form.specs.FirstForm as spec;

use crate::only::only;
use crate::terms::term_of;
use crate::words::is_name;
use crate::{Client, Print, Term};
use evo_base::List;
use evo_tree::{Argument, Expr, Identifier, Item, Module, ModuleTree, Stmt};
use std::alloc::{AllocError, Global};

// The term that is an argument without a label.
fn argument_of(alloc: Global, argument: &Argument) -> Result<Option<Term>, AllocError>
    ensures { IfOk result (λ found. found ≡ spec.argument_of argument.now) }
{
    match &argument.0 {
        Some(_) => Ok(None),
        None => term_of(alloc, &argument.1),
    }
}

fn terms_of(alloc: Global, arguments: &[Argument]) -> Result<Option<List<Term>>, AllocError>
    ensures { IfOk result (λ found. found ≡ spec.each_of spec.argument_of arguments.now) }
{
    let mut terms = Vec::new(alloc);
    for argument in arguments {
        let Some(term) = argument_of(alloc, argument)? else {
            return Ok(None);
        };
        terms.push(term)?;
    }
    Ok(Some(List::from_vec(terms)))
}

fn printed_by(alloc: Global, arguments: &[Argument]) -> Result<Option<Print>, AllocError>
    ensures { IfOk result (λ found. found ≡ spec.printed_by arguments.now) }
{
    if arguments.is_empty() {
        return Ok(None);
    }
    match terms_of(alloc, arguments)? {
        Some(terms) => Ok(Some(Print { terms })),
        None => Ok(None),
    }
}

// The call of `print` that an expression is.
fn print_of(alloc: Global, expr: &Expr) -> Result<Option<Print>, AllocError>
    ensures { IfOk result (λ found. found ≡ spec.print_of expr.now) }
{
    match expr {
        Expr::Name(name, Some(arguments)) if name.text.as_slice() == b"print".as_slice() => {
            printed_by(alloc, arguments.as_slice())
        }
        _ => Ok(None),
    }
}

#[tactic(auto, unfolding(crate::specs::FirstForm::print_at))]
fn print_at(alloc: Global, item: &Item) -> Result<Option<Print>, AllocError>
    ensures { IfOk result (λ found. found ≡ spec.print_at item.now) }
{
    match item {
        Item::Stmt(Stmt::Expr(expr)) => print_of(alloc, expr),
        _ => Ok(None),
    }
}

fn prints_of(alloc: Global, items: &[Item]) -> Result<Option<List<Print>>, AllocError>
    ensures { IfOk result (λ found. found ≡ spec.each_of spec.print_at items.now) }
{
    let mut prints = Vec::new(alloc);
    for item in items {
        let Some(print) = print_at(alloc, item)? else {
            return Ok(None);
        };
        prints.push(print)?;
    }
    Ok(Some(List::from_vec(prints)))
}

fn client_with(
    alloc: Global,
    items: &[Item],
    import: &Identifier,
) -> Result<Option<Client>, AllocError>
    ensures { IfOk result (λ found. found ≡ spec.client_with items.now import.now) }
{
    if !is_name(import.text.as_slice()) {
        return Ok(None);
    }
    match prints_of(alloc, items)? {
        Some(prints) => Ok(Some(Client {
            import: import.text.copy(alloc)?,
            prints,
        })),
        None => Ok(None),
    }
}

// The client that a tree is.
fn client_in(alloc: Global, tree: &ModuleTree) -> Result<Option<Client>, AllocError>
    ensures { IfOk result (λ found. found ≡ spec.client_of tree.now) }
{
    match only(tree.imports.as_slice()) {
        Some(import) => client_with(alloc, tree.items.as_slice(), import),
        None => Ok(None),
    }
}

/// The client that a module is, where it is one of the first form.
pub fn client_of(alloc: Global, module: &Module) -> Result<Option<Client>, AllocError>
    ensures { IfOk result (λ found. found ≡ spec.client_of «module».now) }
{
    client_in(alloc, module.tree())
}
