//! What the definitions of the canonical text and of spelling say of each other.

ghost use Rattle.evo_round_trip.specs.RoundTrip.{IsReadAgain, CanonicalTextIsReadAgain};

use evo_tree::Module;

/// The canonical text of each tree that some text spells is read as a tree that is the same but for places.
pub fn canonical_text_is_read_again()
    ensures { CanonicalTextIsReadAgain }
{}

/// So is that of each module, since a module keeps the fact that some text spells it.
pub fn module_is_read_again(whole: &Module)
    ensures { IsReadAgain whole.now }
{
    let _tree = whole.tree();
}
