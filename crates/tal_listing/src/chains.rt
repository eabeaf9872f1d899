//! Labels by their addresses.

ghost use Rattle.std.specs.Prelude.{◌<◌, ◌+◌, length, slice_index_or, IfOk};
ghost use Rattle.tal_words.specs.declared.name.Label.{Label};
ghost use Rattle.tal_listing.specs.LabelChains.{IsNext, AreChained};

use std::alloc::{AllocError, Global};
use tal_words::Label;

/// The number of addresses.
const ADDRESSES: usize = 0x1_0000;

/// Labels in chains by their addresses, each in order.
#[derive(Drop)]
pub struct LabelChains {
    /// For each address where its first label stands, which is at the end if it has none.
    first: Vec<usize>,
    /// For each label where the next one of its address stands, which is at the end if there is none.
    next: Vec<usize>,
}

impl LabelChains {
    /// The chains of labels.
    pub fn new(alloc: Global, labels: &[Label]) -> Result<LabelChains, AllocError>
        ensures { IfOk result (λ chains. AreChained labels.now 0 chains.first.items chains.next.items) }
    {
        let end = labels.len();
        let mut first = vec![in alloc; end; ADDRESSES]?;
        let mut next = vec![in alloc; end; end]?;
        for place in (0..end).rev() {
            let address = labels[place].address as usize;
            next[place] = first[address];
            first[address] = place;
        }
        Ok(LabelChains { first, next })
    }

    /// Where the first label of an address stands.
    pub fn first_of(&self, labels: &[Label], address: u16) -> usize
        requires { AreChained labels.now 0 self.now.first.items self.now.next.items }
        ensures { IsNext labels.now address 0 result }
    {
        self.first[address as usize]
    }

    /// Where the next label of the address of one stands.
    pub fn next_of(&self, labels: &[Label], place: usize) -> usize
        requires chained { AreChained labels.now 0 self.now.first.items self.now.next.items }
        requires within { place < length labels.now }
        ensures { (d : Label) → IsNext labels.now (slice_index_or labels.now place d).address (place + 1) result }
    {
        self.next[place]
    }
}
