//! A standard stream as a sink.
ghost use Rattle.std.specs.Prelude.{◌≡◌, ◌<◌, ◌≤◌, false, length, take, IfOk, OnErr};
ghost use Rattle.std.specs.Io.KnownBytes.{Appends};
ghost use Rattle.uxn_io_traits.specs.Ended.{SinkEnded, SinkFailed};
ghost use Rattle.uxn_io_traits.specs.Unknown.{unknown_sink};
ghost use Rattle.uxn_io_host.specs.Streams.{stream_state, written_to};

use std::io::Write;
use uxn_io_traits::{Failed, Sink};

/// Writes and flushes each piece. As a sink its contents are unknown. It promises nothing, and counts
/// exactly the calls that failed.
#[derive(Drop)]
pub struct Stream<W> {
    stream: W,
    faults: u64,
}

impl<W: Write + Drop> Stream<W> {
    /// A sink over the stream, with no fault so far.
    pub fn new(stream: W) -> Stream<W>
        ensures fresh { stream_state result ≡ unknown_sink 0 }
        ensures stream { written_to result ≡ stream }
    {
        Stream { stream, faults: 0 }
    }
}

impl<W: Write + Drop> Sink for Stream<W> {
    ghost use Rattle.uxn_io_host.specs.Streams.{stream_state};

    ghost state = { stream_state };

    /// After an answer of n the stream has exactly the first n bytes of the piece more.
    #[tactic(auto, using(uxn_io_traits::specs::UnknownLaws::sink_took, uxn_io_traits::specs::UnknownLaws::sink_failed, crate::proofs::Bytes::appends_none, crate::proofs::Bytes::appends_kept))]
    fn put(&mut self, piece: &[u8]) -> Result<usize, Failed>
        ensures count { IfOk result (λ n. n ≤ length piece.now) }
        ensures some { IfOk result (λ n. 0 < length piece.now → 0 < n) }
        ensures taken { IfOk result (λ n. SinkEnded (take n piece.now) false (stream_state self.old) (stream_state self.new)) }
        ensures failed { OnErr result (SinkFailed piece.now (stream_state self.old) (stream_state self.new)) }

        ensures bytes { IfOk result (λ n. Appends (W.contents (written_to self.old)) (W.contents (written_to self.new)) (take n piece.now)) }
    {
        if piece.is_empty() {
            return Ok(0);
        }
        match self.stream.write(piece) {
            Ok(taken) if taken > 0 && self.stream.flush().is_ok() => Ok(taken),
            _ => {
                self.faults = self.faults.saturating_add(1);
                Err(Failed)
            }
        }
    }
}
