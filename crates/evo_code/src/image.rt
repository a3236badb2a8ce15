//! Images: what two objects become when they are linked.

use crate::layout::Symbol;
use crate::object::Function;
use evo_base::List;

/// A symbol of a type or of the instances of a class, with its words.
#[derive(Drop)]
pub struct SizeWords {
    pub symbol: Symbol,
    pub words: u64,
}

/// The words of all types and instances.
pub type Sizes = List<SizeWords>;

/// What an entry of a table leads to.
#[derive(Drop)]
pub enum Target {
    /// A function, by its number in the image.
    Code(u64),
    /// The table of a conformance.
    Table(Symbol),
}

/// An entry of the table of a class or of a conformance.
#[derive(Drop)]
pub struct Entry {
    pub name: Symbol,
    pub target: Target,
}

/// A class with its whole table: that of its superclass, with its own entries put in.
#[derive(Drop)]
pub struct ClassTable {
    pub symbol: Symbol,
    pub superclass: Option<Symbol>,
    pub entries: List<Entry>,
}

/// A conformance with its whole table: an entry for each requirement and subtable of its protocol.
#[derive(Drop)]
pub struct ConfTable {
    pub symbol: Symbol,
    pub entries: List<Entry>,
}

/// What a machine runs.
#[derive(Drop)]
pub struct Image {
    /// The functions of the library, and then those of the client.
    pub functions: List<Function>,
    /// How many functions are the library's.
    pub library: u64,
    pub sizes: Sizes,
    pub classes: List<ClassTable>,
    pub conformances: List<ConfTable>,
}
