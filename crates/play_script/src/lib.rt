//! Play scripts, read from a text and printed as one. The program prints none, and so it stands on `text_lines` alone.
#![tactic(auto)]

mod names;
mod printing;

pub use printing::{print_script, printed_scripts_are_read};
pub use text_lines::{
    Clock, Event, Script, ScriptKind, ScriptStop, Version, read_script, version_2_reads_version_1,
};
