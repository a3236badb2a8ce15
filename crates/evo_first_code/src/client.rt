ghost use Rattle.std.specs.Prelude.{◌≡◌, ◌≤◌, ◌∷◌, ◌++◌, [], All, replicate, IfOk, OnOk};
ghost use Rattle.evo_first_form.specs.Copies.{copied_body};
ghost use Rattle.evo_first_form.specs.Facts.{TermFacts, PrintFacts, ClientFacts};
ghost use Rattle.evo_first_form.specs.Accepted.{IsAcceptedInterface, IsAcceptedClient};
ghost use Rattle.evo_code.specs.Layouts.{most_words};
ghost use Rattle.evo_first_code.specs.Objects.{client_symbol, print_code, prints_code, most_terms as the_most, start_function as the_start, with_copy, copy_functions, one_word as the_word, client_object as the_object};
ghost use Rattle.evo_first_code.specs.Works.{HaveFacts, IsClientObject, WorksWithEvery, AreTimed};

use crate::code::{function_of, one_word, slot, term_code};
use crate::imports::imports_of;
use crate::object::object_of;
use crate::symbol::{START, copy_symbol};
use evo_base::{List, Name, NameTable};
use evo_code::{Function, Instr, Layout, Level, Object};
use evo_copies::{View, copies_needed};
use evo_first_form::{Client, Interface, Print, Term};
use std::alloc::{AllocError, Global};

// Writes the code of a print.
fn write_print(
    alloc: Global,
    library: &Name,
    view: &View<'_>,
    terms: &[Term],
    code: &mut Vec<Instr>,
) -> Result<(), AllocError>
    requires { All TermFacts terms.now }
    ensures { OnOk result (code.new.items ≡ code.old.items ++ print_code (client_symbol library.now view.now) terms.now) }
{
    let mut slots = Vec::new(alloc);
    for (i, term) in terms.iter().enumerate() {
        let to = i as u64;
        code.push(term_code(alloc, library, view, to, term)?)?;
        slots.push(slot(to))?;
    }
    code.push(Instr::Print {
        items: List::from_vec(slots),
    })?;
    Ok(())
}

// Writes the code of all prints.
fn write_prints(
    alloc: Global,
    library: &Name,
    view: &View<'_>,
    prints: &[Print],
    code: &mut Vec<Instr>,
) -> Result<(), AllocError>
    requires { All PrintFacts prints.now }
    ensures { OnOk result (code.new.items ≡ code.old.items ++ prints_code (client_symbol library.now view.now) prints.now) }
{
    for print in prints {
        write_print(alloc, library, view, print.terms.as_slice(), code)?;
    }
    Ok(())
}

// The most terms of a print.
fn most_terms(prints: &[Print]) -> usize
    ensures { result ≡ the_most prints.now }
{
    let mut most = 0;
    for print in prints {
        most = most.max(print.terms.as_slice().len());
    }
    most
}

// So many slots of one word.
fn slots(alloc: Global, count: usize) -> Result<List<Layout>, AllocError>
    ensures slots { IfOk result (λ slots. slots ≡ replicate count the_word) }
    ensures fits { count ≤ most_words }
{
    let mut slots = Vec::new(alloc);
    for _step in 0..count {
        slots.push(one_word())?;
    }
    Ok(List::from_vec(slots))
}

// The code of a client's top level.
fn start_code(
    alloc: Global,
    library: &Name,
    view: &View<'_>,
    prints: &[Print],
) -> Result<Vec<Instr>, AllocError>
    requires { All PrintFacts prints.now }
    ensures { IfOk result (λ code. code.items ≡ (the_start (client_symbol library.now view.now) prints.now).code) }
{
    let mut code = Vec::new(alloc);
    code.push(Instr::Tick)?;
    write_prints(alloc, library, view, prints, &mut code)?;
    code.push(Instr::Return {
        from: slot(0),
        size: Layout::Words(0),
    })?;
    Ok(code)
}

// The top level of a client.
fn start_function(
    alloc: Global,
    library: &Name,
    view: &View<'_>,
    prints: &[Print],
) -> Result<Function, AllocError>
    requires { All PrintFacts prints.now }
    ensures function { IfOk result (λ f. f ≡ the_start (client_symbol library.now view.now) prints.now) }
    ensures fits { IfOk result (λ f. the_most prints.now ≤ most_words) }
{
    let code = start_code(alloc, library, view, prints)?;
    Ok(Function {
        symbol: Name::from_vec(START.to_vec(alloc)?),
        level: Level::Timed,
        exported: false,
        slots: slots(alloc, most_terms(prints))?,
        params: 0,
        result: Layout::Words(0),
        code: List::from_vec(code),
    })
}

// Adds the client's copy of a function.
fn add_copy(
    alloc: Global,
    library: &Name,
    view: &View<'_>,
    name: &[u8],
    functions: &mut Vec<Function>,
) -> Result<(), AllocError>
    requires { HaveFacts view.now }
    ensures { OnOk result (functions.new.items ≡ functions.old.items ++ with_copy library.now view.now name.now (copied_body view.now name.now) []) }
{
    let Some(copied) = view.copied(name) else {
        return Ok(());
    };
    let symbol = copy_symbol(alloc, library, copied.name)?;
    functions.push(function_of(alloc, library, view, symbol, false, copied.body)?)?;
    Ok(())
}

// The client's copies of functions.
fn copy_functions_of(
    alloc: Global,
    library: &Name,
    view: &View<'_>,
    copies: &NameTable,
) -> Result<Vec<Function>, AllocError>
    requires { HaveFacts view.now }
    ensures { IfOk result (λ functions. functions.items ≡ copy_functions library.now view.now copies.now) }
{
    let mut functions = Vec::new(alloc);
    for place in 0..copies.len() {
        let Some(name) = copies.name_at(place) else {
            return Ok(functions);
        };
        add_copy(alloc, library, view, name, &mut functions)?;
    }
    Ok(functions)
}

// A client's functions: its copies, and its top level.
fn functions_of(
    alloc: Global,
    library: &Name,
    view: &View<'_>,
    prints: &[Print],
    copies: &NameTable,
) -> Result<Vec<Function>, AllocError>
    requires bodies { HaveFacts view.now }
    requires prints { All PrintFacts prints.now }
    ensures functions { IfOk result (λ functions. functions.items ≡ copy_functions library.now view.now copies.now ++ the_start (client_symbol library.now view.now) prints.now ∷ []) }
    ensures fits { IfOk result (λ functions. the_most prints.now ≤ most_words) }
{
    let mut functions = copy_functions_of(alloc, library, view, copies)?;
    functions.push(start_function(alloc, library, view, prints)?)?;
    Ok(functions)
}

// The object with these copies and the top level.
fn object_with(
    alloc: Global,
    library: &Name,
    view: &View<'_>,
    prints: &[Print],
    copies: &NameTable,
) -> Result<Object, AllocError>
    requires bodies { HaveFacts view.now }
    requires prints { All PrintFacts prints.now }
    ensures object { IfOk result (λ object. object ≡ the_object library.now view.now prints.now copies.now) }
    ensures fits { IfOk result (λ object. the_most prints.now ≤ most_words) }
{
    let functions = functions_of(alloc, library, view, prints, copies)?;
    let imports = imports_of(alloc, library, view, prints, copies)?;
    let main = Name::from_vec(b"main".to_vec(alloc)?);
    Ok(object_of(alloc, main, imports, functions))
}

// The object of a client, with the copies that it reaches.
fn client_object(
    alloc: Global,
    interface: &Interface,
    view: &View<'_>,
    prints: &[Print],
) -> Result<Object, AllocError>
    requires view { view.now ≡ interface.now.functions }
    requires bodies { HaveFacts view.now }
    requires prints { All PrintFacts prints.now }
    ensures { IfOk result (IsClientObject interface.now prints.now) }
{
    let copies = copies_needed(alloc, view, prints)?;
    Ok(object_with(alloc, &interface.name, view, prints, &copies)?)
}

/// The object of a client that was accepted against the interface: its copies of the functions that clients
/// copy, as far as it reaches them, and its top level. Nothing of a library is seen here but the interface.
/// Only memory can fail.
pub fn build_client(
    alloc: Global,
    interface: &Interface,
    client: &Client,
) -> Result<Object, AllocError>
    requires interface { IsAcceptedInterface interface.now }
    requires client { IsAcceptedClient interface.now client.now }
    requires bodies { HaveFacts interface.now.functions }
    requires prints { ClientFacts client.now }
    ensures object { IfOk result (IsClientObject interface.now client.now.prints) }
    ensures works { IfOk result (WorksWithEvery interface.now client.now) }
    ensures timed { IfOk result (λ o. AreTimed o.functions) }
{
    let view = View::new(alloc, interface.functions.as_slice())?;
    client_object(alloc, interface, &view, client.prints.as_slice())
}
