ghost use Rattle.std.specs.Prelude.{◌≡◌, ◌++◌, IfOk, OnOk};
ghost use Rattle.evo_first_form.specs.Calls.{calls_of, calls_of_body, calls_of_term, calls_of_terms};
ghost use Rattle.evo_first_form.specs.Copies.{copied_body, calls_of_copies};
ghost use Rattle.evo_first_code.specs.Objects.{needed, imports_of as the_imports};

use crate::symbol::symbol_of;
use evo_base::{Name, NameTable};
use evo_code::{Import, ImportKind};
use evo_copies::View;
use evo_first_form::{Print, Term};
use std::alloc::{AllocError, Global};

// Adds what a term needs of the library.
fn add_term(
    alloc: Global,
    library: &Name,
    view: &View<'_>,
    term: &Term,
    imports: &mut Vec<Import>,
) -> Result<(), AllocError>
    ensures { OnOk result (imports.new.items ≡ imports.old.items ++ needed library.now view.now (calls_of_term term.now)) }
{
    let Term::Call(name) = term else {
        return Ok(());
    };
    if view.copied(name.as_slice()).is_none() {
        imports.push(Import {
            symbol: symbol_of(alloc, library, name)?,
            kind: ImportKind::Function,
        })?;
    }
    Ok(())
}

// Adds what terms need.
fn add_terms(
    alloc: Global,
    library: &Name,
    view: &View<'_>,
    terms: &[Term],
    imports: &mut Vec<Import>,
) -> Result<(), AllocError>
    ensures { OnOk result (imports.new.items ≡ imports.old.items ++ needed library.now view.now (calls_of_terms terms.now)) }
{
    for term in terms {
        add_term(alloc, library, view, term, imports)?;
    }
    Ok(())
}

// Adds what the client's own code needs.
fn add_prints(
    alloc: Global,
    library: &Name,
    view: &View<'_>,
    prints: &[Print],
    imports: &mut Vec<Import>,
) -> Result<(), AllocError>
    ensures { OnOk result (imports.new.items ≡ imports.old.items ++ needed library.now view.now (calls_of prints.now)) }
{
    for print in prints {
        add_terms(alloc, library, view, print.terms.as_slice(), imports)?;
    }
    Ok(())
}

// Adds what the copy of a function needs.
fn add_copy(
    alloc: Global,
    library: &Name,
    view: &View<'_>,
    name: &[u8],
    imports: &mut Vec<Import>,
) -> Result<(), AllocError>
    ensures { OnOk result (imports.new.items ≡ imports.old.items ++ needed library.now view.now (calls_of_body (copied_body view.now name.now))) }
{
    let Some(copied) = view.copied(name) else {
        return Ok(());
    };
    add_term(alloc, library, view, copied.body, imports)
}

// Adds what the copies need.
fn add_copies(
    alloc: Global,
    library: &Name,
    view: &View<'_>,
    copies: &NameTable,
    imports: &mut Vec<Import>,
) -> Result<(), AllocError>
    ensures { OnOk result (imports.new.items ≡ imports.old.items ++ needed library.now view.now (calls_of_copies view.now copies.now)) }
{
    for place in 0..copies.len() {
        let Some(name) = copies.name_at(place) else {
            return Ok(());
        };
        add_copy(alloc, library, view, name, imports)?;
    }
    Ok(())
}

/// What a client with these copies needs of the library.
pub fn imports_of(
    alloc: Global,
    library: &Name,
    view: &View<'_>,
    prints: &[Print],
    copies: &NameTable,
) -> Result<Vec<Import>, AllocError>
    ensures { IfOk result (λ imports. imports.items ≡ the_imports library.now view.now prints.now copies.now) }
{
    let mut imports = Vec::new(alloc);
    add_prints(alloc, library, view, prints, &mut imports)?;
    add_copies(alloc, library, view, copies, &mut imports)?;
    Ok(imports)
}
