//! Words of a Uxntal source: how it is cut, what each word means, and what can be wrong with it.
#![tactic(auto)]

mod cutting;
mod digits;
mod fault;
mod form;
mod name;
mod opcode;
mod plain;
mod runes;
mod span;
mod text;

pub use cutting::words;
pub use digits::short_number;
pub use fault::{AsmStop, Fault, FaultKind, fault_word, first_fault_is_first};
pub use form::{Form, Rune, form_of};
pub use name::{Label, Name, name_fault};
pub use opcode::{names_are_read, op_byte, op_name};
pub use plain::{names_are_plain, plain_words_are_the_words, words_have_no_blanks};
pub use runes::{closes, opens, rune_of};
pub use span::{Expanded, Span, Word};
pub use text::{begins, is_only};
