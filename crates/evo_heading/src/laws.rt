//! What the definition of headings says by itself.

ghost use Rattle.evo_heading.specs.Heading.{OneHeading};

/// A text begins with at most one heading.
pub fn one_heading()
    ensures { OneHeading }
{}
