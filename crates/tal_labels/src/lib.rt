//! Where the words of a Uxntal source lie, and its labels.
#![tactic(auto)]

mod chains;
mod closing;
mod keeping;
mod kept;
mod label_index;
mod labels;
mod name_table;
mod placed;
mod placer;
mod placing;
mod plain;
mod scope;
mod shapes;

pub use labels::{FIRST_SCOPE, full_name, names_of_labels_have_no_blank, next_scope};
pub use placed::{Placed, PlacedWord};
pub use placer::{Placer, one_word_more_is_placed_behind};
pub use placing::place;
pub use plain::plain_words_stand_one_behind_the_other;
pub use scope::Scope;
pub use shapes::{faults_of_places_are_in_order, strays_match_no_opener};
