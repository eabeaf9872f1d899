//! Sinks: what takes bytes, one piece after the other.
ghost use Rattle.std.specs.Prelude.{◌<◌, ◌≤◌, false, length, take, IfOk, OnErr, is_err};
ghost use Rattle.uxn_io_traits.specs.State.{SinkState};
ghost use Rattle.uxn_io_traits.specs.Ended.{SinkEnded, SinkFailed};

/// The one fault of a sink or a tree: something outside did not do what it was asked.
#[derive(Clone, Copy, PartialEq, Eq)]
pub struct Failed;

/// Takes bytes, piece by piece.
///
/// It counts its faults. A call that answers `Failed` has raised the count, or left it at its last
/// value, 2^64 - 1; no call lowers it. A sink may promise to be exact: then it counts one for each call
/// that answers `Failed`, and none for another.
pub trait Sink {
    /// The bytes that it has taken, where they are known; what it has counted; and how much it is guaranteed to
    /// takes: fewer bytes than this are taken without a fault, from now on. So 0 promises nothing.
    ghost state: { Self → SinkState };

    /// Takes some bytes from the start of the piece, and says how many: at least one, unless the
    /// piece is empty. After `Failed` it has taken nothing.
    fn put(&mut self, piece: &[u8]) -> Result<usize, Failed>
        ensures count { IfOk result (λ n. n ≤ length piece.now) }
        ensures some { IfOk result (λ n. 0 < length piece.now → 0 < n) }
        ensures taken { IfOk result (λ n. SinkEnded (take n piece.now) false (state self.old) (state self.new)) }
        ensures failed { OnErr result (SinkFailed piece.now (state self.old) (state self.new)) };
}

/// Puts the whole piece. After `Failed` the sink has taken a prefix that is shorter than the piece,
/// perhaps empty.
pub fn put_all<S: Sink>(sink: &mut S, piece: &[u8]) -> Result<(), Failed>
    ensures ended { SinkEnded piece.now (is_err result) (S.state sink.old) (S.state sink.new) }
{
    let mut at = 0;
    while at < piece.len() {
        at += sink.put(&piece[at..])?;
    }
    Ok(())
}
