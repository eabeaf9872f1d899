//! What a run is given, one thing at a time.
ghost use Rattle.std.specs.Prelude.{◌≡◌};
ghost use Rattle.vector_loop.specs.PendingInputs.{console_byte_of};

use console_port::EventKind;
use text_lines::Event;

/// One thing that a run is given.
#[derive(Clone, Copy)]
pub enum PendingInput {
    /// A byte of the arguments, with its kind.
    OfArgument(u8, EventKind),
    /// An event of the script.
    OfEvent(Event),
}

impl PendingInput {
    /// The byte that it gives the console, with its kind; none of an event that is not of the console.
    pub fn console_byte(self) -> Option<(u8, EventKind)>
        ensures { result ≡ console_byte_of self }
    {
        match self {
            PendingInput::OfArgument(byte, kind) => Some((byte, kind)),
            PendingInput::OfEvent(Event::Input(byte)) => Some((byte, EventKind::Input)),
            PendingInput::OfEvent(Event::EndInput) => Some((0, EventKind::End)),
            PendingInput::OfEvent(_) => None,
        }
    }
}
