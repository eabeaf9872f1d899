//! Labels in order, which are found by their full names.

ghost use Rattle.std.specs.Prelude.{◌≡◌, ◌∷◌, [], ◌++◌, false, OnOk, OnErr};
ghost use Rattle.std.specs.List.{list_any};
ghost use Rattle.std.specs.Str.{bytes_eq};
ghost use Rattle.tal_words.specs.Labels.{address_named};

use crate::name_table::NameTable;
use std::alloc::{AllocError, Global};
use std::marker::Model;
use tal_words::{Label, Name};

/// Labels in order of definition, with a table of their full names.
#[derive(Drop)]
pub struct LabelIndex {
    labels: Vec<Label>,
    names: NameTable,
}

impl Model for LabelIndex {
    ghost use Rattle.std.specs.Prelude.{◌≡◌, List};
    ghost use Rattle.tal_words.specs.declared.name.Label.{Label as LabelValue};
    ghost use Rattle.tal_labels.specs.Index.{names_of};

    ghost Value = { List LabelValue };

    ghost view = { λ index. index.labels.items };

    ghost invariant = { λ index. index.names ≡ names_of index.labels.items };
}

impl LabelIndex {
    /// No labels.
    pub fn new(alloc: Global) -> LabelIndex
        ensures { result ≡ [] }
    {
        LabelIndex {
            labels: Vec::new(alloc),
            names: NameTable::new(alloc),
        }
    }

    /// Whether a full name is that of a label.
    pub fn has(&self, name: &[u8]) -> bool
        ensures { result ≡ list_any (λ label. bytes_eq name.now label.name) self.now }
    {
        self.names.position(name) < self.labels.len()
    }

    /// Adds the label of a full name that no label has.
    pub fn define(&mut self, alloc: Global, name: Vec<u8>, address: u16) -> Result<(), AllocError>
        requires { list_any (λ label. bytes_eq name.items label.name) self.old ≡ false }
        ensures ok { OnOk result (self.new ≡ self.old ++ record { name = name.items; address = address } ∷ []) }
        ensures err { OnErr result (self.new ≡ self.old) }
    {
        self.labels.reserve(1)?;
        let label = Label {
            name: Name::new(alloc, name.as_slice())?,
            address,
        };
        self.names.add(alloc, name.as_slice())?;
        self.labels.push_reserved(label);
        Ok(())
    }

    /// The address of the label of a full name.
    pub fn address_of(&self, name: &[u8]) -> Option<u16>
        ensures { result ≡ address_named self.now name.now }
    {
        let place = self.names.position(name);
        if place < self.labels.len() {
            return Some(self.labels[place].address);
        }
        None
    }

    /// The labels in order, without their index.
    pub fn into_labels(self) -> Vec<Label>
        ensures { result.items ≡ self }
    {
        self.labels
    }

    /// The labels in order.
    pub fn as_slice(&self) -> &[Label]
        ensures { result.now ≡ self.now }
    {
        &self.labels
    }
}
