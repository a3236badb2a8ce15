//! What the definitions of runs say of each other. Each law is the contract of a function with an empty body.

ghost use Rattle.evo_meaning.specs.Laws.{
  BoundIsFree,
  DispatchStays,
  EndStays,
  LookUpFinds,
  OutputGrows,
  SameKeyIsEquality,
  TicksNeverRise,
};

/// The test by which declarations, bodies, conformances and fields are found holds of equal keys alone.
pub fn same_key_is_equality()
    ensures { SameKeyIsEquality }
{}

/// A look-up among declarations, bodies or conformances gives what `find` of such a list gives.
pub fn look_up_finds()
    ensures { LookUpFinds }
{}

/// The ticks left never exceed those given.
pub fn ticks_never_rise()
    ensures { TicksNeverRise }
{}

/// With more ticks a run prints as much or more, and nothing else before.
pub fn output_grows()
    ensures { OutputGrows }
{}

/// A run that does not end by its ticks is the same with more.
pub fn end_stays()
    ensures { EndStays }
{}

/// The bounds on calls and turns are never met before a tick is wanting.
pub fn bound_is_free()
    ensures { BoundIsFree }
{}

/// The bound on superclasses takes nothing away: what is found with one is found with each greater one.
pub fn dispatch_stays()
    ensures { DispatchStays }
{}
