//! The system device: the expansion port, the debug text and the exit code of a state. No call takes memory.
#![tactic(auto)]

mod debug;
mod expansions;

pub use debug::{debug_text, exit_code};
pub use expansions::{BankRange, expansion, target};
