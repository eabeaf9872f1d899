//! Indices in chains by their hashes.

ghost use Rattle.std.specs.Prelude.{◌≡◌, ◌<◌, ◌≤◌, ◌+◌, ◌-◌, ◌^◌, ◌%◌, ◌∷◌, ◌++◌, [], ℕ, List, length, slice_index, IfOk, OnOk, OnErr};
ghost use Rattle.tal_labels.specs.Chains.{AreChained};

use std::alloc::{AllocError, Global};

/// More hashes than are kept.
const MOST_HASHES: usize = 0xffff_ffff;

/// The hashes of a list. The indices of those with a remainder in common are in a chain, the last one first.
#[derive(Drop)]
pub struct Chains {
    hashes: Vec<u32>,
    /// For each remainder one more than the last index that has it, or 0.
    lasts: Vec<u32>,
    /// For each index one more than the next one of its chain, or 0.
    nexts: Vec<u32>,
    ghost room: { length hashes.items ≤ length lasts.items },
    ghost chained: { AreChained hashes.items lasts.items nexts.items },
}

/// Adds the next index, of this hash, to its chain.
fn link(lasts: &mut Vec<u32>, nexts: &mut Vec<u32>, hash: u32) -> Result<(), AllocError>
    requires some { 0 < length lasts.old.items }
    requires few { length nexts.old.items < 2 ^ 32 - 1 }
    ensures ok { OnOk result ((hashes : List ℕ) → AreChained hashes lasts.old.items nexts.old.items
        → AreChained (hashes ++ hash ∷ []) lasts.new.items nexts.new.items) }
    ensures size { length lasts.new.items ≡ length lasts.old.items }
    ensures count { OnOk result (length nexts.new.items ≡ length nexts.old.items + 1) }
    ensures err { OnErr result ((hashes : List ℕ) → AreChained hashes lasts.old.items nexts.old.items
        → AreChained hashes lasts.new.items nexts.new.items) }
{
    let at = hash as usize % lasts.len();
    nexts.push(lasts[at])?;
    lasts[at] = nexts.len() as u32;
    Ok(())
}

/// The chains of hashes by their remainders.
fn chains_of(alloc: Global, hashes: &[u32], room: usize) -> Result<(Vec<u32>, Vec<u32>), AllocError>
    requires some { 0 < room }
    requires few { length hashes.now < 2 ^ 32 - 1 }
    ensures chained { IfOk result (λ parts. AreChained hashes.now parts.0.items parts.1.items) }
    ensures room { IfOk result (λ parts. length parts.0.items ≡ room) }
{
    let mut lasts = vec![in alloc; 0u32; room]?;
    let mut nexts = Vec::with_capacity(alloc, room)?;
    for hash in hashes {
        link(&mut lasts, &mut nexts, *hash)?;
    }
    Ok((lasts, nexts))
}

impl Chains {
    /// No hashes.
    pub fn new(alloc: Global) -> Chains
        ensures { result.hashes.items ≡ [] }
    {
        Chains {
            hashes: Vec::new(alloc),
            lasts: Vec::new(alloc),
            nexts: Vec::new(alloc),
        }
    }

    /// Makes room for one more hash.
    fn make_room(&mut self, alloc: Global) -> Result<(), AllocError>
        requires { length self.old.hashes.items < 2 ^ 32 - 1 }
        ensures same { self.new.hashes.items ≡ self.old.hashes.items }
        ensures room { OnOk result (length self.new.hashes.items < length self.new.lasts.items) }
    {
        let count = self.hashes.len();
        if count < self.lasts.len() {
            return Ok(());
        }
        let (lasts, nexts) = chains_of(alloc, &self.hashes, 2 * count + 16)?;
        self.lasts = lasts;
        self.nexts = nexts;
        Ok(())
    }

    /// Adds a hash.
    pub fn push(&mut self, alloc: Global, hash: u32) -> Result<(), AllocError>
        ensures ok { OnOk result (self.new.hashes.items ≡ self.old.hashes.items ++ hash ∷ []) }
        ensures err { OnErr result (self.new.hashes.items ≡ self.old.hashes.items) }
    {
        if self.hashes.len() >= MOST_HASHES {
            return Err(AllocError);
        }
        self.make_room(alloc)?;
        self.hashes.reserve(1)?;
        link(&mut self.lasts, &mut self.nexts, hash)?;
        self.hashes.push_reserved(hash);
        Ok(())
    }

    /// One more than the first index of the chain that a hash is in, or 0.
    pub fn first(&self, hash: u32) -> usize
        ensures within { result ≤ length self.now.hashes.items }
        ensures skipped { (i : ℕ) → result ≤ i → i < length self.now.hashes.items → slice_index self.now.hashes.items i ≡ hash → ⊥ }
        ensures alike { 0 < result → slice_index self.now.hashes.items (result - 1) % length self.now.lasts.items ≡ hash % length self.now.lasts.items }
    {
        if self.lasts.is_empty() {
            return 0;
        }
        self.lasts[hash as usize % self.lasts.len()] as usize
    }

    /// One more than the index after one in the chain that a hash is in, or 0.
    pub fn next(&self, index: usize, hash: u32) -> usize
        requires within { index < length self.now.hashes.items }
        requires alike { slice_index self.now.hashes.items index % length self.now.lasts.items ≡ hash % length self.now.lasts.items }
        ensures within { result ≤ index }
        ensures skipped { (i : ℕ) → result ≤ i → i < index → slice_index self.now.hashes.items i ≡ hash → ⊥ }
        ensures alike { 0 < result → slice_index self.now.hashes.items (result - 1) % length self.now.lasts.items ≡ hash % length self.now.lasts.items }
    {
        self.nexts[index] as usize
    }
}
