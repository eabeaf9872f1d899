//! Laws of runs.
ghost use Rattle.vector_loop.specs.Counted.{CountingLaw};
ghost use Rattle.vector_loop.specs.Places.{StepLaw};

/// Each moment of a run is that before one more instruction than the moment before it, and the end is that behind all of them.
pub fn the_moments_of_a_run_are_counted()
    ensures { CountingLaw }
{}

/// The run of a script is one step again and again: after each what was done so far and what is left are the whole run, and after
/// so many steps all was done.
pub fn steps_are_the_run()
    ensures { StepLaw }
{}
