//! Names in order, which are found by their bytes.

ghost use Rattle.std.specs.Prelude.{◌≡◌, ◌++◌, ◌∷◌, [], OnOk, OnErr};
ghost use Rattle.std.specs.List.{position_or_len};
ghost use Rattle.std.specs.Str.{bytes_eq};
ghost use Rattle.tal_labels.specs.Hashes.{hash_of};

use crate::chains::Chains;
use crate::keeping::{is_kept, keep};
use crate::kept::Kept;
use std::alloc::{AllocError, Global};
use std::hash::{FoldHasher, Hasher};
use std::marker::Model;
use tal_words::Span;

/// Names in order. A name in a scope is kept without the scope, which stands in another name.
#[derive(Drop)]
pub struct NameTable {
    bytes: Vec<u8>,
    kept: Vec<Kept>,
    chains: Chains,
    /// Where the last scope stands, with its slash.
    scope: Span,
}

impl Model for NameTable {
    ghost use Rattle.std.specs.Prelude.{List, ℕ, map};
    ghost use Rattle.tal_labels.specs.NameTables.{name_in, AreKept};

    ghost Value = { List (List ℕ) };

    ghost view = { λ table. map (name_in table.bytes.items) table.kept.items };

    ghost invariant = { λ table. AreKept table.bytes.items table.kept.items table.chains.hashes.items table.scope };
}

/// The hash of a name.
#[tactic(auto, unfolding(crate::specs::Hashes::hash_of))]
fn hash(name: &[u8]) -> u32
    ensures { result ≡ hash_of name.now }
{
    let mut hasher = FoldHasher::default();
    hasher.write(name);
    (hasher.finish() / 0x1_0000_0000) as u32
}

impl NameTable {
    /// No names.
    pub fn new(alloc: Global) -> NameTable
        ensures { result ≡ [] }
    {
        NameTable {
            bytes: Vec::new(alloc),
            kept: Vec::new(alloc),
            chains: Chains::new(alloc),
            scope: Span { start: 0, end: 0 },
        }
    }

    /// Adds a name.
    pub fn add(&mut self, alloc: Global, name: &[u8]) -> Result<(), AllocError>
        ensures ok { OnOk result (self.new ≡ self.old ++ name.now ∷ []) }
        ensures err { OnErr result (self.new ≡ self.old) }
    {
        self.kept.reserve(1)?;
        let (kept, scope) = keep(&mut self.bytes, self.scope, name)?;
        self.chains.push(alloc, hash(name))?;
        self.kept.push_reserved(kept);
        self.scope = scope;
        Ok(())
    }

    /// The index of the first name of these bytes, or the number of names where none has them.
    pub fn position(&self, name: &[u8]) -> usize
        ensures { result ≡ position_or_len (bytes_eq name.now) self.now }
    {
        let hash = hash(name);
        let mut found = self.kept.len();
        let mut end = self.chains.first(hash);
        while end > 0 {
            let index = end - 1;
            if is_kept(&self.bytes, self.kept[index], name) {
                found = index;
            }
            end = self.chains.next(index, hash);
        }
        found
    }
}
