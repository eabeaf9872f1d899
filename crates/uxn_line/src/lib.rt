//! Machines in a line: what the first one is given, and what comes of turns.
#![tactic(auto)]

mod events;
mod finish;
mod law;
mod line;
mod machine;
mod member;
mod output;

pub use events::are_of_console;
pub use law::{every_order_gives_the_streams, turns_are_the_run};
pub use line::{Line, Moved};
pub use machine::{Machine, clock_of};
pub use output::next_byte;
pub use text_lines::{Setup, SetupKind, SetupStop, Turns, read_setup};
