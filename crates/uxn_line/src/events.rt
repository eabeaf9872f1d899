//! Which scripts a line can be given.
ghost use Rattle.std.specs.Prelude.{◌≡◌};
ghost use Rattle.std.specs.List.{list_all};
ghost use Rattle.uxn_line.specs.Streams.{is_of_console};

use text_lines::Event;
use vector_loop::PendingInput;

/// Whether all events are of the console: inputs and ends of the input.
pub fn are_of_console(events: &[Event]) -> bool
    ensures { result ≡ list_all is_of_console events.now }
{
    events.iter().all(is_of_console)
}

// Whether an event gives the console a byte.
fn is_of_console(event: &Event) -> bool
    ensures { result ≡ is_of_console event.now }
{
    PendingInput::OfEvent(*event).console_byte().is_some()
}
