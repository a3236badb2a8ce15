//! Integers of 64 bits.

ghost use Rattle.std.specs.Prelude.{◌≡◌, ◌*◌, ◌%◌, ◌^◌, ◌+ℤ◌, ◌-ℤ◌, ◌*ℤ◌, neg_ℤ, int_div, int_rem};
ghost use Rattle.evo_execution.specs.Words.{computed, divided, fitting, ordered, wrapped, bits, signed};
ghost use Rattle.evo_interpreter.specs.Integers.{answer_of};

use evo_code::{MathOperator, OrderOperator};
use evo_execution::{Stop, TrapKind};

fn add(left: i64, right: i64) -> Result<i64, Stop>
    ensures { answer_of result ≡ fitting (left +ℤ right) }
{
    match left.checked_add(right) {
        Some(sum) => Ok(sum),
        None => Err(Stop::Trap(TrapKind::Overflow)),
    }
}

fn subtract(left: i64, right: i64) -> Result<i64, Stop>
    ensures { answer_of result ≡ fitting (left -ℤ right) }
{
    match left.checked_sub(right) {
        Some(difference) => Ok(difference),
        None => Err(Stop::Trap(TrapKind::Overflow)),
    }
}

fn multiply(left: i64, right: i64) -> Result<i64, Stop>
    ensures { answer_of result ≡ fitting (left *ℤ right) }
{
    match left.checked_mul(right) {
        Some(product) => Ok(product),
        None => Err(Stop::Trap(TrapKind::Overflow)),
    }
}

/// The integer with the other sign.
pub fn negate(number: i64) -> Result<i64, Stop>
    ensures { answer_of result ≡ fitting (neg_ℤ number) }
{
    match number.checked_neg() {
        Some(negative) => Ok(negative),
        None => Err(Stop::Trap(TrapKind::Overflow)),
    }
}

fn divide(left: i64, right: i64) -> Result<i64, Stop>
    ensures { answer_of result ≡ divided left right (int_div left right) }
{
    if right == 0 {
        return Err(Stop::Trap(TrapKind::Divide));
    }
    match left.checked_div(right) {
        Some(quotient) => Ok(quotient),
        None => Err(Stop::Trap(TrapKind::Overflow)),
    }
}

fn remainder(left: i64, right: i64) -> Result<i64, Stop>
    ensures { answer_of result ≡ divided left right (int_rem left right) }
{
    if right == 0 {
        return Err(Stop::Trap(TrapKind::Divide));
    }
    match left.checked_rem(right) {
        Some(rest) => Ok(rest),
        None => Err(Stop::Trap(TrapKind::Overflow)),
    }
}

fn wrapping_add(left: i64, right: i64) -> i64
    ensures { result ≡ wrapped (left +ℤ right) }
{
    left.wrapping_add(right)
}

fn wrapping_subtract(left: i64, right: i64) -> i64
    ensures { result ≡ wrapped (left -ℤ right) }
{
    left.wrapping_sub(right)
}

fn wrapping_multiply(left: i64, right: i64) -> i64
    ensures { result ≡ signed (bits left * bits right % (2 ^ 64)) }
{
    left.wrapping_mul(right)
}

/// What an operator makes of two integers.
pub fn computed(operator: MathOperator, left: i64, right: i64) -> Result<i64, Stop>
    ensures { answer_of result ≡ computed operator left right }
{
    match operator {
        MathOperator::Add => add(left, right),
        MathOperator::Subtract => subtract(left, right),
        MathOperator::Multiply => multiply(left, right),
        MathOperator::Divide => divide(left, right),
        MathOperator::Remainder => remainder(left, right),
        MathOperator::WrappingAdd => Ok(wrapping_add(left, right)),
        MathOperator::WrappingSubtract => Ok(wrapping_subtract(left, right)),
        MathOperator::WrappingMultiply => Ok(wrapping_multiply(left, right)),
    }
}

/// Whether two integers stand in an order.
pub fn ordered(operator: OrderOperator, left: i64, right: i64) -> bool
    ensures { result ≡ ordered operator left right }
{
    match operator {
        OrderOperator::Less => left < right,
        OrderOperator::AtMost => left <= right,
        OrderOperator::More => right < left,
        OrderOperator::AtLeast => right <= left,
    }
}
