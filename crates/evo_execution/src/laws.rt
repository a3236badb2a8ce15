//! What holds of every image that the load check lets through.

ghost use Rattle.evo_execution.specs.Laws.{HasOneRun};

/// A loaded image has exactly one run for each number of ticks.
pub fn images_have_one_run()
    ensures { HasOneRun }
{}
