//! The console: bytes that a program writes, and the events that it is given. No call takes memory.
#![tactic(auto)]

ghost use Rattle.std.specs.Prelude.{◌≡◌, ◌⊎◌, [], ◌∷◌, is_err};
ghost use Rattle.uxn_io_traits.specs.Ended.{SinkEnded};
ghost use Rattle.console_port.specs.Console.{event_byte, given};

use uxn_io_traits::{Failed, Sink};
use uxn_limits::ports;

/// What a byte of an event is.
#[derive(Clone, Copy)]
pub enum EventKind {
    /// A byte of the input.
    Input,
    /// A byte of an argument.
    Argument,
    /// The newline between two arguments.
    Spacer,
    /// The newline behind the last argument, or the end of the input.
    End,
}

impl EventKind {
    /// The byte that represents it in a program.
    pub fn byte(self) -> u8
        ensures { result ≡ event_byte self }
    {
        match self {
            EventKind::Input => 1,
            EventKind::Argument => 2,
            EventKind::Spacer => 3,
            EventKind::End => 4,
        }
    }
}

/// Puts a byte on the output of a port: the standard output at 18, the error output at 19. After `Failed` neither has taken
/// anything.
pub fn console_write<O: Sink, E: Sink>(
    out: &mut O,
    err: &mut E,
    port: u8,
    value: u8,
) -> Result<(), Failed>
    requires { port ≡ 0x18 ⊎ port ≡ 0x19 }
    ensures standard { port ≡ 0x18 → SinkEnded (value ∷ []) (is_err result) (O.state out.old) (O.state out.new) }
    ensures error { port ≡ 0x19 → SinkEnded (value ∷ []) (is_err result) (E.state err.old) (E.state err.new) }
    ensures out_alone { port ≡ 0x18 → err.new ≡ err.old }
    ensures err_alone { port ≡ 0x19 → out.new ≡ out.old }
{
    if port == ports::CONSOLE_WRITE {
        put_byte(out, value)
    } else {
        put_byte(err, value)
    }
}

/// Puts one byte. After `Failed` the sink has taken nothing.
fn put_byte<S: Sink>(sink: &mut S, value: u8) -> Result<(), Failed>
    ensures { SinkEnded (value ∷ []) (is_err result) (S.state sink.old) (S.state sink.new) }
{
    sink.put(&[value])?;
    Ok(())
}

/// Stores an event: its byte in port 12, and the byte of its kind in port 17.
pub fn give(page: &mut [u8; 256], value: u8, kind: u8)
    ensures { page.new ≡ given page.old value kind }
{
    page[usize::from(ports::CONSOLE_READ)] = value;
    page[usize::from(ports::CONSOLE_TYPE)] = kind;
}
