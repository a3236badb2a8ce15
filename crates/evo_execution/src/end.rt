//! How runs end.

/// Why a program stopped.
#[derive(Clone, Copy, Debug, PartialEq, Eq)]
pub enum TrapKind {
    /// An integer that 64 bits do not hold.
    Overflow,
    /// A division by zero.
    Divide,
    /// A precondition that was false.
    Precondition,
    /// A fatal error.
    Fatal,
}

/// What is wrong with an instruction.
#[derive(Clone, Copy, Debug, PartialEq, Eq)]
pub enum MachineFault {
    /// A word of another kind than the instruction needs.
    Word,
    /// A place outside of the frame or object, or behind the code.
    Range,
    /// An entry that a table lacks, or that is of the other kind.
    Entry,
    /// A length that is not the one of the slot, the result or the box; or a class without a size.
    Size,
}

/// Why an instruction cannot be done.
#[derive(Clone, Copy, Debug, PartialEq, Eq)]
pub enum Stop {
    Fault(MachineFault),
    Trap(TrapKind),
}

/// How a run ends.
#[derive(Clone, Copy, Debug, PartialEq, Eq)]
pub enum End {
    /// The first frame returned.
    Done,
    Trap(TrapKind),
    /// A tick found none left.
    Budget,
    /// An instruction could not be done.
    Fault {
        kind: MachineFault,
        /// The function's number in the image, counted from 0.
        function: u64,
        /// The instruction's place in the function's code, counted from 0.
        at: u64,
    },
}
