//! Texts that are printed.
ghost use Rattle.uxn_cli.specs.Puts.{Puts};

use super::refusal::Halt;
use uxn_io_traits::{Failed, Sink, put_all};
use uxn_opcodes::Stop;

/// Prints a text.
pub fn print<O: Sink>(text: &[u8], out: &mut O) -> Result<u8, Halt>
    ensures { Puts (O.state out.old) (O.state out.new) text.now 0 result }
{
    match put_all(out, text) {
        Ok(()) => Ok(0),
        Err(Failed) => Err(Halt::Stopped(Stop::SinkFault)),
    }
}
