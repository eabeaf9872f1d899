//! The set of break addresses.

ghost use Rattle.std.specs.Prelude.{◌≡◌};
ghost use Rattle.uxn_debugger.specs.Bits.{addresses_in};
ghost use Rattle.uxn_debugger.specs.Log.{breaks_after, no_breaks, set_with_break, without_break};

use crate::command::DebugCommand;

/// How many words have a bit for each address.
const WORDS: usize = 1024;

// A set of addresses, a bit for each.
#[derive(Drop)]
pub(crate) struct Breaks {
    bits: [u64; WORDS],
}

impl Breaks {
    // No address.
    pub(crate) fn new() -> Breaks
        ensures { addresses_in result.bits ≡ no_breaks }
    {
        Breaks { bits: [0; WORDS] }
    }

    // Whether an address is in the set.
    #[inline(always)]
    pub(crate) fn contains(&self, address: u16) -> bool
        ensures { result ≡ addresses_in self.now.bits address }
    {
        self.bits[usize::from(address / 64)] >> (address % 64) & 1 == 1
    }

    // Adds an address.
    pub(crate) fn insert(&mut self, address: u16)
        ensures { addresses_in self.new.bits ≡ set_with_break address (addresses_in self.old.bits) }
    {
        self.bits[usize::from(address / 64)] |= 1 << (address % 64);
    }

    // Takes an address away.
    pub(crate) fn remove(&mut self, address: u16)
        ensures { addresses_in self.new.bits ≡ without_break address (addresses_in self.old.bits) }
    {
        self.bits[usize::from(address / 64)] &= !(1 << (address % 64));
    }

    // Does what a command does to the set.
    pub(crate) fn follow(&mut self, command: DebugCommand)
        ensures { addresses_in self.new.bits ≡ breaks_after command (addresses_in self.old.bits) }
    {
        match command {
            DebugCommand::Break(address) => self.insert(address),
            DebugCommand::Delete(address) => self.remove(address),
            _ => {}
        }
    }
}
