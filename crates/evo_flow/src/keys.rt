//! Whether keys are equal, as a truth value of the definitions.

ghost use Rattle.std.specs.Prelude.{◌≡◌};
ghost use Rattle.evo_meaning.specs.Keys as keys;

use evo_base::Key;
use evo_resolved::same_key;

/// Whether two keys are equal.
pub(crate) fn is_same(first: &Key, second: &Key) -> bool
    ensures { result ≡ keys.same_key first.now second.now }
{
    same_key(first, second)
}
