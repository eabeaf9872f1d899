//! Texts of lines: their lines and words, the numbers that words spell, tables of first words, and the first faulty line.
//!
//! And what two kinds of them mean: play scripts, which give a program its clock, its arguments and its events; and setups, which say
//! what machines stand in a line, what the first one is given, and who gets turns.
#![tactic(auto)]

mod lines;
mod named;
mod numbers;
mod reading;
mod row;
mod script;
mod script_line;
mod script_reading;
mod script_word;
mod setup;
mod setup_line;
mod setup_reading;
mod setup_word;
mod stop;
mod values;
mod words;

pub use lines::Lines;
pub use named::{Named, value_named};
pub use numbers::{begins_with, byte_of, integer_within, number_within};
pub use reading::first_faulty_line;
pub use row::{Counts, LineFault, Row, keyword_of};
pub use script::{Clock, Event, Script, ScriptKind, ScriptStop, Version};
pub use script_reading::{read_script, version_2_reads_version_1};
pub use setup::{Setup, SetupKind, SetupStop, Turns};
pub use setup_reading::read_setup;
pub use stop::TextStop;
pub use values::{BUTTONS, MOUSE_BUTTONS, Value};
pub use words::first_word;
