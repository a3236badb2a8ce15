ghost use Rattle.std.specs.Prelude.{◌≡◌, [], IfOk};
ghost use Rattle.evo_first_form.specs.Interface.{is_visible as the_test};
ghost use Rattle.evo_first_form.specs.Facts.{FunctionFacts, LibraryFacts};
ghost use Rattle.evo_first_code.specs.Objects.{library_function as the_function, library_functions, library_object};
ghost use Rattle.evo_first_code.specs.Works.{AreTimed};

use crate::code::function_of;
use crate::object::object_of;
use crate::symbol::symbol_of;
use evo_base::Name;
use evo_code::{Function, Object};
use evo_copies::View;
use evo_first_form::Access;
use std::alloc::{AllocError, Global};

// Whether clients see a function.
fn is_visible(access: Access) -> bool
    ensures { result ≡ the_test access }
{
    match access {
        Access::Internal => false,
        Access::Public => true,
        Access::Inlinable => true,
    }
}

fn library_function(
    alloc: Global,
    library: &Name,
    nothing: &View<'_>,
    function: &evo_first_form::Function,
) -> Result<Function, AllocError>
    requires nothing { nothing.now ≡ [] }
    requires facts { FunctionFacts function.now }
    ensures { IfOk result (λ f. f ≡ the_function library.now function.now) }
{
    let symbol = symbol_of(alloc, library, &function.name)?;
    let exported = is_visible(function.access);
    function_of(alloc, library, nothing, symbol, exported, &function.body)
}

// The functions of a library's object, in source order.
fn built_functions(
    alloc: Global,
    library: &Name,
    nothing: &View<'_>,
    functions: &[evo_first_form::Function],
) -> Result<Vec<Function>, AllocError>
    requires nothing { nothing.now ≡ [] }
    requires facts { LibraryFacts functions.now }
    ensures { IfOk result (λ built. built.items ≡ library_functions library.now functions.now) }
{
    let mut built = Vec::new(alloc);
    for function in functions {
        built.push(library_function(alloc, library, nothing, function)?)?;
    }
    Ok(built)
}

/// The object of a library: for each of its functions, in source order, one that takes a tick and gives the
/// value of its body. Those that clients see are exported. It needs nothing of another object, and copies
/// nothing. Only memory can fail.
pub fn build_library(
    alloc: Global,
    library: &Name,
    functions: &[evo_first_form::Function],
) -> Result<Object, AllocError>
    requires { LibraryFacts functions.now }
    ensures object { IfOk result (λ o. o ≡ library_object library.now functions.now) }
    ensures timed { IfOk result (λ o. AreTimed o.functions) }
{
    let nothing = View::new(alloc, &[])?;
    let built = built_functions(alloc, library, &nothing, functions)?;
    Ok(object_of(alloc, library.copy(alloc)?, Vec::new(alloc), built))
}
