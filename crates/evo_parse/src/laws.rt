//! What the definitions of modules and of their faults say by themselves.

ghost use Rattle.evo_parse.specs.Text.{OneModule, NoFault, OneFault};

/// A text spells at most one module of a form.
pub fn one_module()
    ensures { OneModule }
{}

/// A text that spells a module has no fault.
pub fn no_fault()
    ensures { NoFault }
{}

/// A text has at most one first fault.
pub fn one_fault()
    ensures { OneFault }
{}
