//! Includes: a source with the words of its files in place of the words that include them; and sources of programs: a source with its
//! includes, assembled.
#![tactic(auto)]

mod faults;
mod laws;
mod source;
mod source_fault;
mod source_laws;
mod spliced;
mod splicing;

pub use faults::{IncludeFault, IncludeKind, Origin, SpliceStop};
pub use laws::{flat_texts_have_the_spliced_words, splicing_looks_at_included_files_alone};
pub use source::{AssembledSource, read_source};
pub use source_fault::{SourceFault, SourceStop};
pub use source_laws::{a_source_looks_at_its_files_alone, faults_of_flat_texts_have_an_origin};
pub use spliced::Spliced;
pub use splicing::splice;
