//! What the definitions of the first form say by themselves.

ghost use Rattle.std.specs.Prelude.{◌≡◌, List, Some};
ghost use Rattle.evo_tree.specs.declared.module.ModuleTree.{ModuleTree};
ghost use Rattle.evo_first_form.specs.declared.Function.{Function};
ghost use Rattle.evo_first_form.specs.declared.Client.{Client};
ghost use Rattle.evo_first_form.specs.Facts.{LibraryFacts, ClientFacts};
ghost use Rattle.evo_first_form.specs.FirstForm.{library_of as the_library, client_of as the_client};

/// The functions of a library have names, and return integers below 2^63 or call names.
pub fn library_facts()
    ensures { (m : ModuleTree) (functions : List Function) → the_library m ≡ Some functions → LibraryFacts functions }
{}

/// A client imports a name, and prints integers below 2^63 and calls of names.
pub fn client_facts()
    ensures { (m : ModuleTree) (client : Client) → the_client m ≡ Some client → ClientFacts client }
{}
