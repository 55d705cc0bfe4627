//! Laws of jobs.

ghost use Rattle.vc_context.specs.Laws.{RunsAreBack};

/// What an engine makes of a job's work is what the model says.
pub fn runs_are_back()
    ensures { RunsAreBack }
{}
