//! Macros of a Uxntal source: what each head defines, and the list of words that the uses give.
#![tactic(auto)]

mod body;
mod expansion;
mod head;
mod pass;
mod plain;

pub use expansion::{Expander, expand, expanders_give_the_list, faults_of_macros_are_in_order};
pub use plain::{expanded_words_have_no_blanks, plain_words_expand_to_themselves};
pub use tal_words::Expanded;
