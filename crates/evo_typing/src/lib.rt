//! Typing of expressions: what they are once their names are resolved, which types they have, and what is at fault.
//!
//! `specs` says it. `Shapes` is what typing sees: declarations by key, what types stand for, what names find. `Typed` says
//! when a resolved tree has types, by the declarations alone; `Resolves` what an expression resolves to; `Rule` in which
//! order its parts are judged and which fault stands where, one clause a form; `Infer` the walk and the faults that come of
//! it; `Whole` what a checker is asked for. `Site` and `Searches` say what all this is in a module and the interface that it
//! imports. The searches of names stand below in `evo_names`, what requirements make of types in `evo_solve`; the checkers
//! of bodies and the law on mixed programs stand above.
#![tactic(auto)]

mod laws;

pub use laws::{answer_is_exact, fault_excludes_tree, one_tree, typing_survives, walk_is_exact};
