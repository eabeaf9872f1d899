//! Symbol files, which keep the labels of a program, and look-ups of labels.
#![tactic(auto)]

mod label_names;
mod label_table;
mod lookups;
mod reading;
mod stop;
mod writing;

pub use label_names::LabelNames;
pub use label_table::LabelTable;
pub use lookups::{address_of, nearest};
pub use reading::{read_symbols, written_symbols_are_read};
pub use stop::{SymbolKind, SymbolStop};
pub use tal_words::{Label, Name};
pub use writing::write_symbols;
