//! What the definitions of acceptance say by themselves.

ghost use Rattle.std.specs.Prelude.{ℕ, List};
ghost use Rattle.evo_first_form.specs.declared.Function.{Function};
ghost use Rattle.evo_first_form.specs.Interface.{interface_of};
ghost use Rattle.evo_first_form.specs.Accepted.{IsAcceptedLibrary, IsAcceptedInterface};

/// The interface of a library that is accepted is accepted.
pub fn interfaces_are_accepted()
    ensures { (library : List ℕ) (functions : List Function) → IsAcceptedLibrary library functions → IsAcceptedInterface (interface_of library functions) }
{}
