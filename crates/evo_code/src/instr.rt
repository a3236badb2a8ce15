//! The instructions of the machine.

use crate::layout::{Layout, Operand, Symbol};
use evo_base::{List, Name};

/// What `Math` does. The first five trap where 64 bits do not hold the result, the last three drop what they do not hold.
#[derive(Clone, Copy, PartialEq, Eq)]
pub enum MathOperator {
    Add,
    Subtract,
    Multiply,
    Divide,
    Remainder,
    WrappingAdd,
    WrappingSubtract,
    WrappingMultiply,
}

/// What `Order` asks of its operands.
#[derive(Clone, Copy, PartialEq, Eq)]
pub enum OrderOperator {
    Less,
    AtMost,
    More,
    AtLeast,
}

/// What `Trap` ends a run with.
#[derive(Clone, Copy, PartialEq, Eq)]
pub enum TrapNumber {
    Precondition,
    Fatal,
}

/// An argument of a call: its place in the frame of the caller, and how many words it has.
#[derive(Drop)]
pub struct Arg {
    pub place: Operand,
    pub layout: Layout,
}

/// An instruction. Its operands stand in the order of their bytes; a place that is written to is `to`.
#[derive(Drop)]
pub enum Instr {
    /// Takes a tick, or ends the run where none is left.
    Tick,
    /// Puts an integer.
    Int {
        to: Operand,
        value: i64,
    },
    /// Puts a truth value.
    Bool {
        to: Operand,
        value: bool,
    },
    /// Puts a string.
    Text {
        to: Operand,
        text: Name,
    },
    /// Copies words.
    Move {
        to: Operand,
        from: Operand,
        size: Layout,
    },
    /// Goes to an instruction of the same function, counted from 0.
    Jump {
        target: u64,
    },
    /// Goes there only where the test is false.
    Unless {
        test: Operand,
        target: u64,
    },
    /// Puts what the operator makes of two integers.
    Math {
        operator: MathOperator,
        to: Operand,
        left: Operand,
        right: Operand,
    },
    /// Puts the integer with the other sign.
    Neg {
        to: Operand,
        from: Operand,
    },
    /// Puts whether two integers stand in this order.
    Order {
        operator: OrderOperator,
        to: Operand,
        left: Operand,
        right: Operand,
    },
    /// Puts whether two integers, two truth values or two strings are equal.
    Equal {
        to: Operand,
        left: Operand,
        right: Operand,
    },
    /// Puts whether two references are to one object.
    Same {
        to: Operand,
        left: Operand,
        right: Operand,
    },
    /// Puts the other truth value.
    Not {
        to: Operand,
        from: Operand,
    },
    /// Puts two strings, one behind the other.
    Join {
        to: Operand,
        left: Operand,
        right: Operand,
    },
    /// Enters the function of this symbol. The words of its result go to `to`.
    Call {
        function: Symbol,
        args: List<Arg>,
        to: Operand,
        size: Layout,
    },
    /// Enters the function that the class of the first argument has for this method.
    Dispatch {
        method: Symbol,
        args: List<Arg>,
        to: Operand,
        size: Layout,
    },
    /// Enters the function that the superclass of this class has for this method.
    Super {
        class: Symbol,
        method: Symbol,
        args: List<Arg>,
        to: Operand,
        size: Layout,
    },
    /// Enters the function that a witness table has for this requirement. The table is passed before the arguments.
    Witness {
        table: Operand,
        requirement: Symbol,
        args: List<Arg>,
        to: Operand,
        size: Layout,
    },
    /// Leaves the function with so many words. From the first frame it ends the run.
    Return {
        from: Operand,
        size: Layout,
    },
    /// Puts a reference to a new instance of this class.
    New {
        to: Operand,
        class: Symbol,
    },
    /// Copies words out of an object, from this offset on.
    Load {
        to: Operand,
        object: Operand,
        offset: Layout,
        size: Layout,
    },
    /// Copies words into an object, from this offset on.
    Store {
        object: Operand,
        offset: Layout,
        from: Operand,
        size: Layout,
    },
    /// Puts a box of so many words.
    Box {
        to: Operand,
        from: Operand,
        size: Layout,
    },
    /// Copies the words of a box, of which there must be so many.
    Unbox {
        to: Operand,
        from: Operand,
        size: Layout,
    },
    /// Puts the witness table of a conformance.
    Table {
        to: Operand,
        conformance: Symbol,
    },
    /// Puts the subtable of this name of a witness table.
    Sub {
        to: Operand,
        table: Operand,
        name: Symbol,
    },
    /// Writes words as one line, with single spaces between them.
    Print {
        items: List<Operand>,
    },
    /// Ends the run.
    Trap {
        number: TrapNumber,
    },
}
