//! Laws that tie turns to runs.
ghost use Rattle.std.specs.Prelude.{ℕ};
ghost use Rattle.uxn_line.specs.Streams.{LineJob, IsJob, FollowsRun, run_of_machine, after};
ghost use Rattle.uxn_line.specs.Moves.{StreamLaw};

/// What a machine of a line has written after so many turns is a prefix of its stream; where its run is over it is the whole
/// stream, and its state is the last one of the run, with the same exit code.
pub fn turns_are_the_run()
    ensures { (job : LineJob) → IsJob job → (machine count : ℕ) → FollowsRun (after job machine count) (run_of_machine job machine) }
{}

/// Whatever turns a line was given, in whatever order: what each of its machines has written is a prefix of the stream of running
/// the machines one after the other, and the whole stream where the machine's run is over.
pub fn every_order_gives_the_streams()
    ensures { StreamLaw }
{}
