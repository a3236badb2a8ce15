//! The law that ties the two meanings. It is the contract of a function with an empty body.

ghost use Rattle.evo_first_meaning.specs.Laws.{FirstFormIsACase};

/// A program of the first form prints and ends, for every number of ticks, as its resolved trees do.
pub fn first_form_is_a_case()
    ensures { FirstFormIsACase }
{}
