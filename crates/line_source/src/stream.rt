//! A reader, as the standard input, as a source.
ghost use Rattle.std.specs.Prelude.{◌<◌, vec_len};

use crate::source::Source;
use std::alloc::{AllocError, Global};
use std::io::Read;
use uxn_io_traits::Failed;

/// How many bytes are read at once, at most.
const CHUNK: usize = 4096;

/// Reads what is there, up to 4096 bytes, and gives it byte by byte. As a source its contents are known where those of its reader
/// are. It counts exactly the calls that failed.
#[derive(Drop)]
pub struct InputStream<R> {
    reader: R,
    chunk: Vec<u8>,
    next: usize,
    count: usize,
    faults: u64,
    ghost some: { 0 < vec_len chunk },
}

impl<R: Read + Drop> InputStream<R> {
    ghost use Rattle.std.specs.Prelude.{◌≡◌, ◌∷◌, [], IfOk, OnOk, OnErr, MatchOption};
    ghost use Rattle.std.specs.Io.KnownBytes.{IsAtEnd};
    ghost use Rattle.line_source.specs.Source.{SourceFailed, Took};
    ghost use Rattle.line_source.specs.Stream.{held_bytes, input_state};

    /// A source over a reader, with no fault so far. It takes all its memory now. Errors when out of memory.
    pub fn new(alloc: Global, reader: R) -> Result<InputStream<R>, AllocError>
        ensures reader { IfOk result (λ source. source.reader ≡ reader) }
        ensures held { IfOk result (λ source. held_bytes source ≡ []) }
        ensures faults { IfOk result (λ source. source.faults ≡ 0) }
    {
        let chunk = vec![in alloc; 0u8; CHUNK]?;
        Ok(InputStream {
            reader,
            chunk,
            next: 0,
            count: 0,
            faults: 0,
        })
    }

    /// The next byte that was read already, if one is left.
    fn held_byte(&mut self) -> Option<u8>
        ensures held { MatchOption result (held_bytes self.old ≡ []) (λ byte. held_bytes self.old ≡ byte ∷ held_bytes self.new) }
        ensures none { MatchOption result (held_bytes self.new ≡ []) (λ _. Unit {0}) }
        ensures reader { self.new.reader ≡ self.old.reader }
        ensures faults { self.new.faults ≡ self.old.faults }
    {
        if self.next >= self.count {
            return None;
        }
        let byte = self.chunk.get(self.next).copied();
        self.next += 1;
        byte
    }

    /// Reads some bytes, or none at the end, where none is left of those that were read.
    fn refill(&mut self) -> Result<(), Failed>
        requires { held_bytes self.old ≡ [] }
        ensures ok { OnOk result (Took [] (input_state R.remaining self.old) (input_state R.remaining self.new)) }
        ensures end { OnOk result (held_bytes self.new ≡ [] → IsAtEnd (input_state R.remaining self.new).left) }
        ensures failed { OnErr result (SourceFailed (input_state R.remaining self.old) (input_state R.remaining self.new)) }
    {
        self.next = 0;
        self.count = 0;
        match self.reader.read(self.chunk.as_mut_slice()) {
            Ok(count) => {
                self.count = count;
                Ok(())
            }
            Err(_) => {
                self.faults = self.faults.saturating_add(1);
                Err(Failed)
            }
        }
    }
}

impl<R: Read + Drop> Source for InputStream<R> {
    ghost use Rattle.line_source.specs.Stream.{input_state};

    ghost state = { input_state R.remaining };

    fn next_byte(&mut self) -> Result<Option<u8>, Failed> {
        if let Some(byte) = self.held_byte() {
            return Ok(Some(byte));
        }
        self.refill()?;
        Ok(self.held_byte())
    }
}
