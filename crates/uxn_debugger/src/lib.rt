//! The debugger: texts of commands, and a watcher that does them during a run and keeps a log.
#![tactic(auto)]

mod breaks;
mod command;
mod command_line;
mod debugger;
mod place;
mod printing;
mod reading;
mod scene;

pub use command::{CommandKind, CommandStop, DebugCommand};
pub use debugger::{Debugger, open_undo, the_log_is_that_of_the_run};
pub use reading::read_commands;
