//! Objects, the images that they are linked to, and the symbols by which they name things.
//!
//! The types are those of an object's fields. `symbol_of` makes the symbol of a key (`specs/Symbols`), `loads` is the load
//! check (`specs/Loads`), and `value` counts the words of a layout (`specs/Layouts`). Keys, names and lists stand below in
//! `evo_base`; execution, lowering, reading and writing objects, and linking stand above.
#![tactic(auto)]

mod checked;
mod image;
mod instr;
pub mod laws;
mod layout;
mod load_check;
mod named;
mod object;
mod sizes;
mod symbols;

pub use image::{ClassTable, ConfTable, Entry, Image, SizeWords, Sizes, Target};
pub use instr::{Arg, Instr, MathOperator, OrderOperator, TrapNumber};
pub use layout::{Layout, Operand, Symbol};
pub use load_check::{begins_well, is_low, is_timed, jumps_well, loads, may_call};
pub use named::{Named, is_named, item_named, number_named};
pub use object::{
    ClassRecord, CodeEntry, ConfRecord, Function, Import, ImportKind, Level, Object,
    ProtocolRecord, Requirement, SizeRecord, SubEntry, SubRequirement,
};
pub use sizes::value;
pub use symbols::symbol_of;
