//! Words with their addresses, and labels.

ghost use Rattle.std.specs.Prelude.{◌≡◌};

use crate::label_index::LabelIndex;
use std::marker::Model;
use tal_words::{Expanded, Form, Label};

/// A word of the expanded list with its address.
#[derive(Clone, Copy)]
pub struct PlacedWord {
    /// The word.
    pub word: Expanded,
    /// What it means.
    pub form: Form,
    /// The address of its first byte, if it has bytes, or else of the next byte.
    pub address: u64,
    /// The number of its bytes.
    pub size: u16,
    /// For a word that opens a lambda, the address of the `}` that closes it.
    pub lambda: Option<u16>,
}

/// The words of a source with their addresses, and its labels.
#[derive(Drop)]
pub struct Placed {
    words: Vec<PlacedWord>,
    labels: LabelIndex,
}

impl Model for Placed {
    ghost use Rattle.tal_labels.specs.Placing.{Layout};

    ghost Value = { Layout };

    ghost view = { λ placed. record { words = placed.words.items; labels = placed.labels } };
}

impl Placed {
    ghost use Rattle.tal_words.specs.Labels.{address_named};

    /// The words and the labels.
    pub(crate) fn new(words: Vec<PlacedWord>, labels: LabelIndex) -> Placed
        ensures { result ≡ record { words = words.items; labels = labels } }
    {
        Placed { words, labels }
    }

    /// The words in order, each with its address.
    pub fn words(&self) -> &[PlacedWord]
        ensures { result.now ≡ self.now.words }
    {
        &self.words
    }

    /// The labels in order of definition.
    pub fn labels(&self) -> &[Label]
        ensures { result.now ≡ self.now.labels }
    {
        self.labels.as_slice()
    }

    /// The words and the labels, their index given up.
    pub fn into_parts(self) -> (Vec<PlacedWord>, Vec<Label>)
        ensures words { result.0.items ≡ self.words }
        ensures labels { result.1.items ≡ self.labels }
    {
        (self.words, self.labels.into_labels())
    }

    /// The address of the label of a full name.
    pub fn address_of(&self, name: &[u8]) -> Option<u16>
        ensures { result ≡ address_named self.now.labels name.now }
    {
        self.labels.address_of(name)
    }
}
