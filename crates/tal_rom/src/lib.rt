//! The assembler: from a source to its ROM, or to its first fault.
#![tactic(auto)]

mod assembly;
mod encoding;
mod hole;
mod names;
mod patch;
mod patcher;
mod plain;
mod references;
mod rom;

pub use assembly::{Assembly, assemble, words_cover_once};
pub use patcher::{Patcher, patched_sources_are_assembled};
pub use plain::plain_words_assemble_to_their_bytes;
pub use references::faults_of_references_are_in_order;
pub use tal_labels::PlacedWord;
pub use tal_words::{AsmStop, Fault, FaultKind, Label, fault_word};
