//! Labels with a table of the nearest label of each address.

ghost use Rattle.std.specs.Prelude.{◌≡◌, IfOk, length};
ghost use Rattle.std.specs.Option.{option_copied};
ghost use Rattle.tal_symbols.specs.Lookups.{nearest_label};
ghost use Rattle.tal_symbols.specs.Tables.{numbered, AreFirst, AreNearest};

use crate::lookups::nearest;
use std::alloc::{AllocError, Global};
use std::marker::Model;
use tal_words::Label;

/// How many addresses there are.
const ADDRESSES: usize = 65536;

/// Among so few labels the nearest is found without a table.
const FEW: usize = 16;

/// Labels by their addresses. Contracts see the list of the labels.
#[derive(Drop)]
pub struct LabelTable<'a> {
    alloc: Global,
    labels: &'a [Label],
    // For each address the number of its nearest label, once the table is made.
    numbers: Vec<usize>,
}

impl<'a> Model for LabelTable<'a> {
    ghost use Rattle.std.specs.Prelude.{List};
    ghost use Rattle.tal_words.specs.declared.name.Label.{Label};
    ghost use Rattle.tal_symbols.specs.Tables.{AreNearest};

    ghost Value = { List Label };

    ghost view = { λ table. table.labels.now };

    ghost invariant = { λ table. AreNearest table.labels.now table.numbers.items };
}

impl<'a> LabelTable<'a> {
    /// Labels whose table is not made yet. It takes no memory.
    pub fn new(alloc: Global, labels: &'a [Label]) -> LabelTable<'a>
        ensures { result ≡ labels.now }
    {
        LabelTable {
            alloc,
            labels,
            numbers: Vec::new(alloc),
        }
    }

    /// Makes the table, unless it is made or the labels are few.
    #[inline(never)]
    pub fn make(&mut self) -> Result<(), AllocError>
        ensures { self.new ≡ self.old }
    {
        if self.labels.len() > FEW && self.numbers.is_empty() {
            self.numbers = nearest_numbers(self.alloc, self.labels)?;
        }
        Ok(())
    }

    /// The label of the greatest address that is not above an address, and of several such labels the first. `None` exactly where
    /// each label lies above.
    pub fn nearest(&self, address: u16) -> Option<&Label>
        ensures { option_copied result ≡ nearest_label self.now address }
    {
        match self.numbers.get(usize::from(address)) {
            Some(number) => label_numbered(self.labels, *number),
            None => nearest(self.labels, address),
        }
    }
}

/// The label of a number: one more than its index, and 0 where there is none.
fn label_numbered(labels: &[Label], number: usize) -> Option<&Label>
    ensures { option_copied result ≡ numbered labels.now number }
{
    match number.checked_sub(1) {
        Some(index) => labels.get(index),
        None => None,
    }
}

/// For each address the number of its nearest label.
fn nearest_numbers(alloc: Global, labels: &[Label]) -> Result<Vec<usize>, AllocError>
    ensures { IfOk result (λ numbers. AreNearest labels.now numbers.items) }
{
    let mut numbers = first_numbers(alloc, labels)?;
    for address in 1..ADDRESSES {
        if numbers[address] == 0 {
            numbers[address] = numbers[address - 1];
        }
    }
    Ok(numbers)
}

/// For each address the number of the first label there.
fn first_numbers(alloc: Global, labels: &[Label]) -> Result<Vec<usize>, AllocError>
    ensures first { IfOk result (λ numbers. AreFirst labels.now labels.now numbers.items) }
    ensures size { IfOk result (λ numbers. length numbers.items ≡ 65536) }
{
    let mut numbers = vec![in alloc; 0; ADDRESSES]?;
    let mut left = labels.len();
    while let Some(less) = left.checked_sub(1) {
        numbers[usize::from(labels[less].address)] = left;
        left = less;
    }
    Ok(numbers)
}
