//! Instructions as they are written in the table.

use crate::words::{args, behind, layout, name, number, place, places, word};
use evo_base::List;
use evo_code::{Arg, Instr, Layout, MathOperator, Operand, OrderOperator, TrapNumber};
use std::alloc::{AllocError, Global};

// The first three words behind the name of an instruction, as places.
#[derive(Drop)]
struct Triple {
    to: Operand,
    left: Operand,
    right: Operand,
}

fn three(alloc: Global, line: &str) -> Result<Triple, AllocError> {
    let to = place(alloc, word(line, 1))?;
    let left = place(alloc, word(line, 2))?;
    let right = place(alloc, word(line, 3))?;
    Ok(Triple { to, left, right })
}

fn math_operator(word: &str) -> Option<MathOperator> {
    match word {
        "add" => Some(MathOperator::Add),
        "subtract" => Some(MathOperator::Subtract),
        "multiply" => Some(MathOperator::Multiply),
        "divide" => Some(MathOperator::Divide),
        "remainder" => Some(MathOperator::Remainder),
        "add&" => Some(MathOperator::WrappingAdd),
        "subtract&" => Some(MathOperator::WrappingSubtract),
        "multiply&" => Some(MathOperator::WrappingMultiply),
        _ => None,
    }
}

fn order_operator(word: &str) -> Option<OrderOperator> {
    match word {
        "less" => Some(OrderOperator::Less),
        "atmost" => Some(OrderOperator::AtMost),
        "more" => Some(OrderOperator::More),
        "atleast" => Some(OrderOperator::AtLeast),
        _ => None,
    }
}

fn math(alloc: Global, operator: MathOperator, line: &str) -> Result<Instr, AllocError> {
    let Triple { to, left, right } = three(alloc, line)?;
    Ok(Instr::Math {
        operator,
        to,
        left,
        right,
    })
}

fn order(alloc: Global, operator: OrderOperator, line: &str) -> Result<Instr, AllocError> {
    let Triple { to, left, right } = three(alloc, line)?;
    Ok(Instr::Order {
        operator,
        to,
        left,
        right,
    })
}

fn int(alloc: Global, line: &str) -> Result<Instr, AllocError> {
    let value = word(line, 2).parse::<i64>().unwrap_or(0);
    let to = place(alloc, word(line, 1))?;
    Ok(Instr::Int { to, value })
}

fn truth(alloc: Global, line: &str) -> Result<Instr, AllocError> {
    let value = word(line, 2) == "true";
    let to = place(alloc, word(line, 1))?;
    Ok(Instr::Bool { to, value })
}

fn text(alloc: Global, line: &str) -> Result<Instr, AllocError> {
    let rest = behind(line, "text").unwrap_or("");
    let (to, text) = rest.split_once(' ').unwrap_or((rest, ""));
    let text = name(alloc, text)?;
    let to = place(alloc, to)?;
    Ok(Instr::Text { to, text })
}

// The words of `move`, `box` and `unbox`.
#[derive(Drop)]
struct Copying {
    to: Operand,
    from: Operand,
    size: Layout,
}

fn sized(alloc: Global, line: &str) -> Result<Copying, AllocError> {
    let to = place(alloc, word(line, 1))?;
    let from = place(alloc, word(line, 2))?;
    let size = layout(alloc, word(line, 3))?;
    Ok(Copying { to, from, size })
}

fn trap(line: &str) -> Instr {
    let number = if word(line, 1) == "fatal" {
        TrapNumber::Fatal
    } else {
        TrapNumber::Precondition
    };
    Instr::Trap { number }
}

fn unless(alloc: Global, line: &str) -> Result<Instr, AllocError> {
    let target = number(word(line, 2));
    let test = place(alloc, word(line, 1))?;
    Ok(Instr::Unless { test, target })
}

fn moved(alloc: Global, line: &str) -> Result<Instr, AllocError> {
    let Copying { to, from, size } = sized(alloc, line)?;
    Ok(Instr::Move { to, from, size })
}

fn boxed(alloc: Global, line: &str) -> Result<Instr, AllocError> {
    let Copying { to, from, size } = sized(alloc, line)?;
    Ok(Instr::Box { to, from, size })
}

fn unboxed(alloc: Global, line: &str) -> Result<Instr, AllocError> {
    let Copying { to, from, size } = sized(alloc, line)?;
    Ok(Instr::Unbox { to, from, size })
}

fn plain(alloc: Global, line: &str) -> Result<Option<Instr>, AllocError> {
    match word(line, 0) {
        "tick" => Ok(Some(Instr::Tick)),
        "int" => Ok(Some(int(alloc, line)?)),
        "bool" => Ok(Some(truth(alloc, line)?)),
        "text" => Ok(Some(text(alloc, line)?)),
        "move" => Ok(Some(moved(alloc, line)?)),
        "jump" => Ok(Some(Instr::Jump {
            target: number(word(line, 1)),
        })),
        "unless" => Ok(Some(unless(alloc, line)?)),
        "trap" => Ok(Some(trap(line))),
        _ => Ok(None),
    }
}

fn negated(alloc: Global, line: &str) -> Result<Instr, AllocError> {
    let to = place(alloc, word(line, 1))?;
    let from = place(alloc, word(line, 2))?;
    Ok(Instr::Neg { to, from })
}

fn not(alloc: Global, line: &str) -> Result<Instr, AllocError> {
    let to = place(alloc, word(line, 1))?;
    let from = place(alloc, word(line, 2))?;
    Ok(Instr::Not { to, from })
}

fn equal(alloc: Global, line: &str) -> Result<Instr, AllocError> {
    let Triple { to, left, right } = three(alloc, line)?;
    Ok(Instr::Equal { to, left, right })
}

fn same(alloc: Global, line: &str) -> Result<Instr, AllocError> {
    let Triple { to, left, right } = three(alloc, line)?;
    Ok(Instr::Same { to, left, right })
}

fn join(alloc: Global, line: &str) -> Result<Instr, AllocError> {
    let Triple { to, left, right } = three(alloc, line)?;
    Ok(Instr::Join { to, left, right })
}

fn of_values(alloc: Global, line: &str) -> Result<Option<Instr>, AllocError> {
    match word(line, 0) {
        "neg" => Ok(Some(negated(alloc, line)?)),
        "not" => Ok(Some(not(alloc, line)?)),
        "equal" => Ok(Some(equal(alloc, line)?)),
        "same" => Ok(Some(same(alloc, line)?)),
        "join" => Ok(Some(join(alloc, line)?)),
        "print" => Ok(Some(Instr::Print {
            items: places(alloc, line)?,
        })),
        _ => Ok(None),
    }
}

// The arguments of a call, and where its result goes.
#[derive(Drop)]
struct Passed {
    args: List<Arg>,
    to: Operand,
    size: Layout,
}

// What stands from this word of a line on.
fn passing(alloc: Global, line: &str, first: usize) -> Result<Passed, AllocError> {
    let mut words = line.split_whitespace().skip(first);
    let args = args(alloc, words.next().unwrap_or("-"))?;
    let to = place(alloc, words.next().unwrap_or("0"))?;
    let size = layout(alloc, words.next().unwrap_or("0"))?;
    Ok(Passed { args, to, size })
}

fn call(alloc: Global, line: &str) -> Result<Instr, AllocError> {
    let function = name(alloc, word(line, 1))?;
    let Passed { args, to, size } = passing(alloc, line, 2)?;
    Ok(Instr::Call {
        function,
        args,
        to,
        size,
    })
}

fn dispatch(alloc: Global, line: &str) -> Result<Instr, AllocError> {
    let method = name(alloc, word(line, 1))?;
    let Passed { args, to, size } = passing(alloc, line, 2)?;
    Ok(Instr::Dispatch {
        method,
        args,
        to,
        size,
    })
}

fn superclass(alloc: Global, line: &str) -> Result<Instr, AllocError> {
    let class = name(alloc, word(line, 1))?;
    let method = name(alloc, word(line, 2))?;
    let Passed { args, to, size } = passing(alloc, line, 3)?;
    Ok(Instr::Super {
        class,
        method,
        args,
        to,
        size,
    })
}

fn witness(alloc: Global, line: &str) -> Result<Instr, AllocError> {
    let table = place(alloc, word(line, 1))?;
    let requirement = name(alloc, word(line, 2))?;
    let Passed { args, to, size } = passing(alloc, line, 3)?;
    Ok(Instr::Witness {
        table,
        requirement,
        args,
        to,
        size,
    })
}

fn given(alloc: Global, line: &str) -> Result<Instr, AllocError> {
    let from = place(alloc, word(line, 1))?;
    let size = layout(alloc, word(line, 2))?;
    Ok(Instr::Return { from, size })
}

fn of_calls(alloc: Global, line: &str) -> Result<Option<Instr>, AllocError> {
    match word(line, 0) {
        "call" => Ok(Some(call(alloc, line)?)),
        "dispatch" => Ok(Some(dispatch(alloc, line)?)),
        "super" => Ok(Some(superclass(alloc, line)?)),
        "witness" => Ok(Some(witness(alloc, line)?)),
        "return" => Ok(Some(given(alloc, line)?)),
        _ => Ok(None),
    }
}

fn new(alloc: Global, line: &str) -> Result<Instr, AllocError> {
    let to = place(alloc, word(line, 1))?;
    let class = name(alloc, word(line, 2))?;
    Ok(Instr::New { to, class })
}

fn load(alloc: Global, line: &str) -> Result<Instr, AllocError> {
    let to = place(alloc, word(line, 1))?;
    let object = place(alloc, word(line, 2))?;
    let offset = layout(alloc, word(line, 3))?;
    let size = layout(alloc, word(line, 4))?;
    Ok(Instr::Load {
        to,
        object,
        offset,
        size,
    })
}

fn store(alloc: Global, line: &str) -> Result<Instr, AllocError> {
    let object = place(alloc, word(line, 1))?;
    let offset = layout(alloc, word(line, 2))?;
    let from = place(alloc, word(line, 3))?;
    let size = layout(alloc, word(line, 4))?;
    Ok(Instr::Store {
        object,
        offset,
        from,
        size,
    })
}

fn table(alloc: Global, line: &str) -> Result<Instr, AllocError> {
    let to = place(alloc, word(line, 1))?;
    let conformance = name(alloc, word(line, 2))?;
    Ok(Instr::Table { to, conformance })
}

fn sub(alloc: Global, line: &str) -> Result<Instr, AllocError> {
    let to = place(alloc, word(line, 1))?;
    let table = place(alloc, word(line, 2))?;
    let name = name(alloc, word(line, 3))?;
    Ok(Instr::Sub { to, table, name })
}

fn of_objects(alloc: Global, line: &str) -> Result<Option<Instr>, AllocError> {
    match word(line, 0) {
        "new" => Ok(Some(new(alloc, line)?)),
        "load" => Ok(Some(load(alloc, line)?)),
        "store" => Ok(Some(store(alloc, line)?)),
        "box" => Ok(Some(boxed(alloc, line)?)),
        "unbox" => Ok(Some(unboxed(alloc, line)?)),
        "table" => Ok(Some(table(alloc, line)?)),
        "sub" => Ok(Some(sub(alloc, line)?)),
        _ => Ok(None),
    }
}

// An instruction of a kind that has operators.
fn of_operator(alloc: Global, line: &str) -> Result<Option<Instr>, AllocError> {
    if let Some(operator) = math_operator(word(line, 0)) {
        return Ok(Some(math(alloc, operator, line)?));
    }
    match order_operator(word(line, 0)) {
        Some(operator) => Ok(Some(order(alloc, operator, line)?)),
        None => Ok(None),
    }
}

/// The instruction that is written here.
pub fn instruction(alloc: Global, line: &str) -> Result<Option<Instr>, AllocError> {
    if let Some(found) = plain(alloc, line)? {
        return Ok(Some(found));
    }
    if let Some(found) = of_operator(alloc, line)? {
        return Ok(Some(found));
    }
    if let Some(found) = of_values(alloc, line)? {
        return Ok(Some(found));
    }
    if let Some(found) = of_calls(alloc, line)? {
        return Ok(Some(found));
    }
    of_objects(alloc, line)
}

/// Instructions with `; ` between them. What is none of them is a trap, so that no row of the table goes by unread.
pub fn code(alloc: Global, text: &str) -> Result<List<Instr>, AllocError> {
    let mut found = Vec::new(alloc);
    for line in text.split("; ") {
        match instruction(alloc, line)? {
            Some(instruction) => found.push(instruction)?,
            None => found.push(Instr::Trap {
                number: TrapNumber::Fatal,
            })?,
        }
    }
    Ok(List::from_vec(found))
}
