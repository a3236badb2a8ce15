//! What the definitions of flow say of each other.

ghost use Rattle.evo_flow.specs.Laws.{FlowIsPaths};

/// What is computed of a way is what its paths do: how they leave it, and what is at fault on one.
pub fn flow_is_paths()
    ensures { FlowIsPaths }
{}
