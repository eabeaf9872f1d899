//! Full names, with their addresses or with the references that wait for them.

ghost use Rattle.std.specs.Prelude.{◌≡◌, ◌∷◌, [], ◌++◌, None, Some, ℕ, List, OnOk, OnErr, IfOk, if◌then◌else◌, is_some};
ghost use Rattle.std.specs.Str.{bytes_eq};
ghost use Rattle.tal_rom.specs.Holes.{known_in, wanted_in};

use crate::hole::{Hole, Named};
use indexmap::IndexMap;
use std::alloc::{AllocError, Global};

/// Full names that were defined or that references look up.
#[derive(Drop)]
pub struct Names {
    entries: IndexMap<Vec<u8>, Named>,
}

impl Names {
    /// No names.
    pub fn new(alloc: Global) -> Names
        ensures known { (name : List ℕ) → known_in result name ≡ None }
        ensures wanted { (name : List ℕ) → wanted_in result name ≡ [] }
    {
        Names {
            entries: IndexMap::new(alloc),
        }
    }

    /// The address of a full name that is defined; where it is not, the reference waits for it.
    pub fn refer(
        &mut self,
        alloc: Global,
        name: Vec<u8>,
        hole: Hole,
    ) -> Result<Option<u16>, AllocError>
        ensures value { IfOk result (λ address. address ≡ known_in self.old name.items) }
        ensures known { (other : List ℕ) → known_in self.new other ≡ known_in self.old other }
        ensures ok { OnOk result ((other : List ℕ) → wanted_in self.new other ≡ wanted_in self.old other
            ++ (if bytes_eq other name.items then if is_some (known_in self.old name.items) then [] else hole ∷ [] else [])) }
        ensures err { OnErr result ((other : List ℕ) → wanted_in self.new other ≡ wanted_in self.old other) }
    {
        match self.entries.get_mut(name.as_slice()) {
            Some(named) => {
                if named.address.is_none() {
                    named.holes.push(hole)?;
                }
                Ok(named.address)
            }
            None => {
                let named = Named {
                    address: None,
                    holes: vec![in alloc; hole]?,
                };
                self.entries.insert(name, named)?;
                Ok(None)
            }
        }
    }

    /// Defines a full name, and gives the references that waited for it.
    pub fn define(
        &mut self,
        alloc: Global,
        name: Vec<u8>,
        address: u16,
    ) -> Result<Vec<Hole>, AllocError>
        ensures holes { IfOk result (λ holes. holes.items ≡ wanted_in self.old name.items) }
        ensures known { OnOk result ((other : List ℕ) → known_in self.new other
            ≡ (if bytes_eq other name.items then Some address else known_in self.old other)) }
        ensures wanted { OnOk result ((other : List ℕ) → wanted_in self.new other
            ≡ (if bytes_eq other name.items then [] else wanted_in self.old other)) }
        ensures known_err { OnErr result ((other : List ℕ) → known_in self.new other ≡ known_in self.old other) }
        ensures wanted_err { OnErr result ((other : List ℕ) → wanted_in self.new other ≡ wanted_in self.old other) }
    {
        let named = Named {
            address: Some(address),
            holes: Vec::new(alloc),
        };
        Ok(match self.entries.insert(name, named)? {
            Some(before) => before.holes,
            None => Vec::new(alloc),
        })
    }
}
