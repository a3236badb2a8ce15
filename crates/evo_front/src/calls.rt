ghost use Rattle.std.specs.Prelude.{◌≡◌, MatchBool};
ghost use Rattle.evo_first_form.specs.Interface.{names_of, declared_names, declarations_of};
ghost use Rattle.evo_first_form.specs.Calls.{calls_of_term};
ghost use Rattle.evo_first_form.specs.Accepted.{AreKnown, AreBodiesKnown};
ghost use Rattle.evo_front.specs.Names.{callable_of};

use evo_base::NameTable;
use evo_first_form::{Access, Function, Term};

/// Whether a term calls nothing but these names.
pub fn knows(names: &NameTable, term: &Term) -> bool
    ensures { MatchBool result (AreKnown names.now (calls_of_term term.now)) (AreKnown names.now (calls_of_term term.now) → ⊥) }
{
    match term {
        Term::Integer(_) => true,
        Term::Call(name) => names.position(name.as_slice()).is_some(),
    }
}

// Whether the body of a function calls nothing but what it may call.
fn knows_body(all: &NameTable, visible: &NameTable, function: &Function) -> bool
    ensures { let names = callable_of function.now.access all.now visible.now in MatchBool result (AreKnown names (calls_of_term function.now.body)) (AreKnown names (calls_of_term function.now.body) → ⊥) }
{
    match function.access {
        Access::Internal | Access::Public => knows(all, &function.body),
        Access::Inlinable => knows(visible, &function.body),
    }
}

/// Whether each body of a library calls nothing but what it may call, by the names of all functions and of
/// those that clients see.
pub fn knows_bodies(all: &NameTable, visible: &NameTable, functions: &[Function]) -> bool
    requires all { all.now ≡ names_of functions.now }
    requires visible { visible.now ≡ declared_names (declarations_of functions.now) }
    ensures { MatchBool result (AreBodiesKnown functions.now functions.now) (AreBodiesKnown functions.now functions.now → ⊥) }
{
    for function in functions {
        if !knows_body(all, visible, function) {
            return false;
        }
    }
    true
}
