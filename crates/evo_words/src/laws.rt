//! What the definitions of words say by themselves.

ghost use Rattle.evo_words.specs.Laws.{OneJob};

/// Words ask for at most one job.
pub fn one_job()
    ensures { OneJob }
{}
