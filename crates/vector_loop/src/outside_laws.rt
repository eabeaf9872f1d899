//! Laws of what a run does outside.
ghost use Rattle.vector_loop.specs.AppendingLaws.{AppendsOnly};
ghost use Rattle.vector_loop.specs.SilenceLaws.{SilenceLaw};

/// Outside its root part a run makes no file and takes none away: it adds bytes to files that are there.
pub fn a_run_only_adds_outside_its_root()
    ensures { AppendsOnly }
{}

/// A frame in which no note ends, and of which no samples are kept, runs no voice's vector and changes nothing outside.
pub fn a_silent_frame_changes_nothing()
    ensures { SilenceLaw }
{}
