ghost use Rattle.std.specs.Prelude.{◌≡◌, IfOk, MatchBool};
ghost use Rattle.std.specs.List.{list_any};
ghost use Rattle.std.specs.Str.{bytes_eq};
ghost use Rattle.evo_base.specs.Names.{AreDistinct};
ghost use Rattle.evo_first_form.specs.Interface.{names_of, declared_names, declarations_of};
ghost use Rattle.evo_first_form.specs.Accepted.{is_taken as the_test, IsAcceptedLibrary};
ghost use Rattle.evo_front.specs.Names.{FreeNames};

use crate::calls::knows_bodies;
use crate::limits::MOST_DECLARATIONS;
use evo_base::{Name, NameTable};
use evo_first_form::{Access, Function};
use std::alloc::{AllocError, Global};

// The names that no declaration at top level has, besides the module's own.
static TAKEN_NAMES: [&[u8]; 7] = [
    b"Swift",
    b"Int",
    b"Bool",
    b"String",
    b"print",
    b"precondition",
    b"fatalError",
];

fn is_one_of(names: &[&[u8]], name: &[u8]) -> bool
    ensures { result ≡ list_any (λ k. bytes_eq name.now k.now) names.now }
{
    for one in names {
        if name == *one {
            return true;
        }
    }
    false
}

fn is_taken(library: &Name, name: &[u8]) -> bool
    ensures { result ≡ the_test library.now name.now }
{
    name == library.as_slice() || is_one_of(&TAKEN_NAMES, name)
}

// The names of the functions, where they are distinct and none is taken.
fn free_names(
    alloc: Global,
    library: &Name,
    functions: &[Function],
) -> Result<Option<NameTable>, AllocError>
    ensures { IfOk result (FreeNames library.now functions.now) }
{
    let mut names = NameTable::new(alloc);
    for function in functions {
        let name = function.name.as_slice();
        if is_taken(library, name) {
            return Ok(None);
        }
        if !names.insert(alloc, name)? {
            return Ok(None);
        }
    }
    Ok(Some(names))
}

// The names of the functions that clients see.
fn visible_names(alloc: Global, functions: &[Function]) -> Result<NameTable, AllocError>
    requires { AreDistinct (declared_names (declarations_of functions.now)) }
    ensures { IfOk result (λ names. names ≡ declared_names (declarations_of functions.now)) }
{
    let mut names = NameTable::new(alloc);
    for function in functions {
        if let Access::Internal = function.access {
            continue;
        }
        let _new = names.insert(alloc, function.name.as_slice())?;
    }
    Ok(names)
}

/// Whether these functions are accepted as a library of this name: few enough, their names distinct and none
/// of them taken, and each body calls nothing but what it may call.
pub fn are_accepted(
    alloc: Global,
    library: &Name,
    functions: &[Function],
) -> Result<bool, AllocError>
    ensures { IfOk result (λ yes. MatchBool yes (IsAcceptedLibrary library.now functions.now) (IsAcceptedLibrary library.now functions.now → ⊥)) }
{
    if functions.len() > MOST_DECLARATIONS {
        return Ok(false);
    }
    let Some(all) = free_names(alloc, library, functions)? else {
        return Ok(false);
    };
    let visible = visible_names(alloc, functions)?;
    Ok(knows_bodies(&all, &visible, functions))
}
