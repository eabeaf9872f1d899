//! The whole program as one call: words, a tree of files and two sinks in, a status out.
#![tactic(auto)]

mod debugging;
mod entry;
mod generating;
mod growing;
mod host;
mod joining;
mod laws;
mod machine;
mod making;
mod playing;
mod report;
mod running;
mod summary;
mod task_files;
mod work;

pub use entry::uxn;
pub use laws::{
    a_fault_raises_a_count, a_refused_source_is_alone, a_verdict_depends_on_what_is_asked,
    an_early_end_leaves_prefixes, debug_shows_what_play_does, the_debugger_only_watches,
};
pub use making::workload_source;
