//! What the definition of the answer says by itself.

ghost use Rattle.evo_driver.specs.Laws.{OneAnswer};

use evo_parse::{no_fault, one_fault, one_module};
use evo_words::one_job;

/// Words ask for at most one answer of files that tell what they hold.
pub fn one_answer()
    ensures { OneAnswer }
{
    one_job();
    one_module();
    no_fault();
    one_fault();
}
