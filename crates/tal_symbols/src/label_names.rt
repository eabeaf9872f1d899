//! Labels by their names.

ghost use Rattle.std.specs.Prelude.{◌≡◌, IfOk};
ghost use Rattle.tal_words.specs.Labels.{address_named};
ghost use Rattle.tal_symbols.specs.Tables.{AreAddresses};

use crate::lookups::address_of;
use indexmap::IndexMap;
use std::alloc::{AllocError, Global};
use std::marker::Model;
use tal_words::Label;

/// The addresses of labels by their names.
type Addresses<'a> = IndexMap<&'a [u8], u16>;

/// Labels by their names. Contracts see the list of the labels.
#[derive(Drop)]
pub struct LabelNames<'a> {
    labels: &'a [Label],
    // The address of the first label of each name, where names are hashed.
    addresses: Option<Addresses<'a>>,
}

impl<'a> Model for LabelNames<'a> {
    ghost use Rattle.std.specs.Prelude.{List, IfSome};
    ghost use Rattle.tal_words.specs.declared.name.Label.{Label};
    ghost use Rattle.tal_symbols.specs.Tables.{AreAddresses};

    ghost Value = { List Label };

    ghost view = { λ names. names.labels.now };

    ghost invariant = { λ names. IfSome names.addresses (λ addresses. AreAddresses (λ key. key.now) names.labels.now addresses.entries) };
}

impl<'a> LabelNames<'a> {
    /// Labels, whose names are hashed where many look-ups are to come. It takes no memory otherwise.
    pub fn new(
        alloc: Global,
        labels: &'a [Label],
        hashed: bool,
    ) -> Result<LabelNames<'a>, AllocError>
        ensures { IfOk result (λ names. names ≡ labels.now) }
    {
        if !hashed {
            return Ok(LabelNames {
                labels,
                addresses: None,
            });
        }
        let addresses = addresses_by_name(alloc, labels)?;
        Ok(LabelNames {
            labels,
            addresses: Some(addresses),
        })
    }

    /// The address of the first label of a name. `None` exactly where no label has it.
    pub fn address_of(&self, name: &[u8]) -> Option<u16>
        ensures { result ≡ address_named self.now name.now }
    {
        match &self.addresses {
            Some(addresses) => addresses.get(name).copied(),
            None => address_of(self.labels, name),
        }
    }
}

/// The address of the first label of each name. The labels are inserted from the last one on, so that the first of a name stays.
fn addresses_by_name<'a>(alloc: Global, labels: &'a [Label]) -> Result<Addresses<'a>, AllocError>
    ensures { IfOk result (λ addresses. AreAddresses (λ key. key.now) labels.now addresses.entries) }
{
    let mut addresses = IndexMap::with_capacity(alloc, labels.len())?;
    let mut left = labels.len();
    while let Some(less) = left.checked_sub(1) {
        left = less;
        let label = &labels[less];
        addresses.insert(label.name.bytes(), label.address)?;
    }
    Ok(addresses)
}
