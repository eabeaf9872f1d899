//! Texts about a ROM: its disassembly, and the listing of its source.
#![tactic(auto)]

mod chains;
mod disassembly;
mod labels;
mod listings;

pub use disassembly::{disassemble, disassemblies_assemble};
pub use labels::source_labels_are_read;
pub use listings::{listed_bytes_are_the_words, listing};
pub use tal_rom::{Assembly, Label};
