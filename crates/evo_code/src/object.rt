//! Objects: what a library or a client becomes, and what it leaves to be linked.

use crate::instr::Instr;
use crate::layout::{Layout, Symbol};
use evo_base::{List, Name, Release};

/// What an import is in the object that defines it.
#[derive(Clone, Copy, PartialEq, Eq)]
pub enum ImportKind {
    Function,
    Size,
    Class,
    Protocol,
    Conformance,
}

/// A symbol that another object defines.
#[derive(Drop)]
pub struct Import {
    pub symbol: Symbol,
    pub kind: ImportKind,
}

/// The layout of a struct, an enum or the instances of a class.
#[derive(Drop)]
pub struct SizeRecord {
    pub symbol: Symbol,
    pub layout: Layout,
}

/// Whether a function takes ticks. One that takes none calls only those that take some, and those of lower levels.
#[derive(Clone, Copy, PartialEq, Eq)]
pub enum Level {
    Zero,
    One,
    Two,
    Three,
    Timed,
}

/// A function.
#[derive(Drop)]
pub struct Function {
    pub symbol: Symbol,
    pub level: Level,
    /// Whether the other object may import it.
    pub exported: bool,
    /// The layouts of its slots. Its frame has their words, one slot behind the other.
    pub slots: List<Layout>,
    /// How many of the first slots take arguments.
    pub params: u64,
    /// What it gives back.
    pub result: Layout,
    /// Its instructions, counted from 0.
    pub code: List<Instr>,
}

/// The function that stands for a method or a requirement, by its number in the object.
#[derive(Drop)]
pub struct CodeEntry {
    pub name: Symbol,
    pub function: u64,
}

/// The conformance whose table is the subtable of this name.
#[derive(Drop)]
pub struct SubEntry {
    pub name: Symbol,
    pub conformance: Symbol,
}

/// A class: what it adds to the table of its superclass, or puts in the place of what is there.
#[derive(Drop)]
pub struct ClassRecord {
    pub symbol: Symbol,
    pub superclass: Option<Symbol>,
    pub entries: List<CodeEntry>,
}

/// A requirement of a protocol, with the number of its default's function.
#[derive(Drop)]
pub struct Requirement {
    pub symbol: Symbol,
    pub fallback: Option<u64>,
}

/// A subtable that each conformance has, with its default.
#[derive(Drop)]
pub struct SubRequirement {
    pub name: Symbol,
    pub fallback: Option<Symbol>,
}

/// A protocol.
#[derive(Drop)]
pub struct ProtocolRecord {
    pub symbol: Symbol,
    pub requirements: List<Requirement>,
    pub subtables: List<SubRequirement>,
}

/// A conformance: what it has for the requirements and subtables of its protocol.
#[derive(Drop)]
pub struct ConfRecord {
    pub symbol: Symbol,
    pub protocol: Symbol,
    pub entries: List<CodeEntry>,
    pub subtables: List<SubEntry>,
}

/// What a module becomes.
#[derive(Drop)]
pub struct Object {
    pub module: Name,
    pub release: Release,
    pub symbols: List<Symbol>,
    pub imports: List<Import>,
    pub sizes: List<SizeRecord>,
    pub functions: List<Function>,
    pub classes: List<ClassRecord>,
    pub protocols: List<ProtocolRecord>,
    pub conformances: List<ConfRecord>,
}
