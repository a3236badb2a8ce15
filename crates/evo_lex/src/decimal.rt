//! Numbers as they are written.

ghost use Rattle.std.specs.Prelude.{IfOk};
ghost use Rattle.evo_lex.specs.Decimal.{IsNumber};

use std::alloc::{AllocError, Global};

/// The number of which this is the decimal text, with no sign and no zero in front. An error is want of memory.
pub fn number_of(alloc: Global, text: &[u8]) -> Result<Option<u64>, AllocError>
    ensures { IfOk result (IsNumber text.now) }
{
    let Ok(digits) = str::from_utf8(text) else {
        return Ok(None);
    };
    let Ok(number) = digits.parse::<u64>() else {
        return Ok(None);
    };
    let again = number.to_string(alloc)?;
    if again.as_bytes() == text {
        Ok(Some(number))
    } else {
        Ok(None)
    }
}
