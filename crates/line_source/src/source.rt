//! Sources: what gives bytes, one after the other.
ghost use Rattle.std.specs.Prelude.{IfOk, OnErr};
ghost use Rattle.line_source.specs.Source.{SourceState, Gave, SourceFailed};

use uxn_io_traits::Failed;

/// Gives bytes, one by one, up to its end.
///
/// It counts its faults. A call that answers `Failed` has raised the count, or left it at its last value, 2^64 - 1; no call
/// lowers it.
pub trait Source {
    /// The bytes that are left, where they are known; and what it has counted.
    ghost state: { Self → SourceState };

    /// The next byte, or none at the end. After `Failed` it has given nothing.
    fn next_byte(&mut self) -> Result<Option<u8>, Failed>
        ensures gave { IfOk result (λ byte. Gave byte (state self.old) (state self.new)) }
        ensures failed { OnErr result (SourceFailed (state self.old) (state self.new)) };
}
