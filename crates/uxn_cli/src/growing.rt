//! A sink that keeps all that it takes.
ghost use Rattle.std.specs.Prelude.{◌≡◌, []};
ghost use Rattle.uxn_cli.specs.Growing.{growing_state};

use std::alloc::Global;
use std::marker::Model;
use uxn_io_traits::{Failed, Sink};

/// A sink in memory that grows: it keeps all that it takes. Its one fault is that memory runs out,
/// and it counts exactly the calls that fail so.
#[derive(Drop)]
pub struct GrowingSink {
    bytes: Vec<u8>,
    faults: u64,
}

impl Model for GrowingSink {
    ghost use Rattle.uxn_cli.specs.Growing.{Growing};

    ghost Value = { Growing };

    ghost view = { λ s. record { taken = s.bytes.items; faults = s.faults } };
}

impl GrowingSink {
    /// A sink that has taken nothing. It takes no memory.
    pub fn new(alloc: Global) -> GrowingSink
        ensures { result ≡ record { taken = []; faults = 0 } }
    {
        GrowingSink {
            bytes: Vec::new(alloc),
            faults: 0,
        }
    }

    /// What it has taken.
    pub fn bytes(&self) -> &[u8]
        ensures { result.now ≡ self.now.taken }
    {
        &self.bytes
    }
}

impl Sink for GrowingSink {
    ghost state = { growing_state };

    fn put(&mut self, piece: &[u8]) -> Result<usize, Failed> {
        match self.bytes.extend_from_slice(piece) {
            Ok(()) => Ok(piece.len()),
            Err(_) => {
                self.faults = self.faults.saturating_add(1);
                Err(Failed)
            }
        }
    }
}
