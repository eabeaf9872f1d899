//! A source in memory, which fails on demand.
ghost use Rattle.std.specs.Prelude.{◌≡◌, true, Some};
ghost use Rattle.line_source.specs.Source.{Gave, SourceFailed};
ghost use Rattle.line_source.specs.Memory.{source_of};

use crate::source::Source;
use uxn_io_traits::Failed;

/// Gives the bytes of a text, up to a call that fails.
#[derive(Drop)]
pub struct MemSource<'a> {
    text: &'a [u8],
    next: usize,
    calls: u64,
    fails: Option<u64>,
    faults: u64,
}

impl<'a> MemSource<'a> {
    /// A source of a text. Where a number is given, the call with this number, from 0, fails.
    pub fn new(text: &'a [u8], fails: Option<u64>) -> MemSource<'a>
        ensures { source_of result ≡ record { left = Some text.now; tally = record { faults = 0; exact = true } } }
    {
        MemSource {
            text,
            next: 0,
            calls: 0,
            fails,
            faults: 0,
        }
    }
}

impl Source for MemSource<'_> {
    ghost use Rattle.line_source.specs.Memory.{source_of};

    ghost state = { source_of };

    fn next_byte(&mut self) -> Result<Option<u8>, Failed> {
        let number = self.calls;
        self.calls = self.calls.saturating_add(1);
        if self.fails == Some(number) {
            self.faults = self.faults.saturating_add(1);
            return Err(Failed);
        }
        let byte = self.text.get(self.next).copied();
        if byte.is_some() {
            self.next += 1;
        }
        Ok(byte)
    }
}
