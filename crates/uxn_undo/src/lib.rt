//! The moments of a run that are kept, so that a debugger can go back to them.
#![tactic(auto)]

mod changes;
mod row;
mod rows;
mod span;
mod undo;

pub use rows::{instructions_change_what_is_kept, the_moments_of_a_run_are_in_a_row};
pub use undo::{Undo, going_back_gives_the_moment, the_newest_moments_are_held};
