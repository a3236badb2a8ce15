//! Types with names behind them, table words, and faults.

use evo_base::{Key, List, Name};
use evo_resolved::RType;

/// A type with associated names behind it. The first is a parameter, a named type or `NoValue`.
#[derive(Drop)]
pub struct Path {
    pub first: RType,
    pub names: List<Name>,
}

/// A conformance that a signature requires, for which it has a table word.
#[derive(Drop)]
pub struct Word {
    pub subject: RType,
    pub protocol: Key,
}

/// Why a type has no canonical type or no path to a conformance.
#[derive(Drop)]
pub enum SolveFault {
    /// It has five associated names or more behind its parameter.
    Long,
    /// No path leads to the conformance.
    NoPath,
    /// There was no memory.
    Memory,
}
