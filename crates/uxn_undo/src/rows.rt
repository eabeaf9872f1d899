//! Laws of the moments of a run.

ghost use Rattle.uxn_undo.specs.Row.{InstructionLaw};
ghost use Rattle.uxn_undo.specs.Runs.{RunLaw};

/// An instruction changes bank 0 only within the bytes that are kept for it.
#[tactic(auto, using(crate::proofs::Instructions::instruction_law))]
pub fn instructions_change_what_is_kept()
    ensures { InstructionLaw }
{}

/// The moments of the reference run of a script are in a row: each differs from the next one, and the last from the end, only
/// within the bytes that are kept for it.
#[tactic(auto, using(crate::proofs::Runs::run_law))]
pub fn the_moments_of_a_run_are_in_a_row()
    ensures { RunLaw }
{}
