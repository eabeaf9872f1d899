//! Runs of the computer: vectors, events and whole scripts, watched or not.
#![tactic(auto)]

mod event;
mod frame;
mod input_queue;
mod laws;
mod output;
mod outside_laws;
mod pending_input;
mod run;
mod runner;
mod tally;
mod vector;
mod watch;

pub use event::run_event;
pub use input_queue::InputQueue;
pub use laws::{steps_are_the_run, the_moments_of_a_run_are_counted};
pub use output::Outputs;
pub use outside_laws::{a_run_only_adds_outside_its_root, a_silent_frame_changes_nothing};
pub use pending_input::PendingInput;
pub use run::run_script;
pub use tally::{Tally, VectorEnd};
pub use vector::run_vector;
pub use watch::{Moment, NoWatch, Watcher};
