//! The words of the command line: what they ask for, and which of the files that they name clash.
#![tactic(auto)]

mod choice;
mod legal;
mod options;
mod reading;
mod task;
mod words;

pub use task::{AssembleTask, DebugTask, DisassembleTask, RunTask, Task, is_among, run_outputs};
pub use words::{Command, WordFault, WordStop, read_words};
