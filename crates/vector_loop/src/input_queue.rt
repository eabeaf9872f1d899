//! What is still to be given of a script.
ghost use Rattle.std.specs.Prelude.{◌≡◌, ◌↔◌, ◌∷◌, [], true, drop, length, slice_get, slice_index_or};
ghost use Rattle.text_lines.specs.ScriptHeld.{bytes_in};
ghost use Rattle.vector_loop.specs.PendingInputs.{kind_before, pending_inputs_of};

use crate::pending_input::PendingInput;
use console_port::EventKind;
use std::marker::Model;
use text_lines::{Event, Script};
use uxn_io_traits::Bytes;

/// What is still to be given of a script: the bytes of its arguments, with a newline behind each, and then its events.
#[derive(Drop)]
pub struct InputQueue<'a> {
    // What is left of the first of the arguments.
    bytes: &'a [u8],
    arguments: &'a [Bytes],
    events: &'a [Event],
}

impl<'a> Model for InputQueue<'a> {
    ghost use Rattle.std.specs.Prelude.{List};
    ghost use Rattle.text_lines.specs.ScriptHeld.{bytes_in};
    ghost use Rattle.vector_loop.specs.declared.pending_input.PendingInput.{PendingInput};
    ghost use Rattle.vector_loop.specs.PendingInputs.{pending_left};

    ghost Value = { List PendingInput };

    ghost view = { λ g. pending_left g.bytes.now (bytes_in g.arguments.now) g.events.now };
}

impl<'a> InputQueue<'a> {
    /// All that a script gives.
    pub fn new(script: &'a Script) -> InputQueue<'a>
        ensures { result ≡ pending_inputs_of script.now }
    {
        let arguments = script.args();
        InputQueue {
            bytes: first_of(arguments),
            arguments,
            events: script.events(),
        }
    }

    /// Whether nothing is left.
    pub fn is_empty(&self) -> bool
        ensures { (result ≡ true) ↔ (self.now ≡ []) }
    {
        self.arguments.is_empty() && self.events.is_empty()
    }

    /// Takes what comes next.
    pub fn take(&mut self) -> Option<PendingInput>
        ensures value { result ≡ slice_get self.old 0 }
        ensures rest { self.new ≡ drop 1 self.old }
    {
        if let [_, later @ ..] = self.arguments {
            if let [byte, rest @ ..] = self.bytes {
                self.bytes = rest;
                return Some(PendingInput::OfArgument(*byte, EventKind::Argument));
            }
            self.arguments = later;
            self.bytes = first_of(later);
            return Some(PendingInput::OfArgument(b'\n', kind_before(later)));
        }
        let [event, later @ ..] = self.events else {
            return None;
        };
        self.events = later;
        Some(PendingInput::OfEvent(*event))
    }
}

// The bytes of the first argument, if there is one.
fn first_of(arguments: &[Bytes]) -> &[u8]
    ensures { result.now ≡ slice_index_or (bytes_in arguments.now) 0 [] }
{
    match arguments {
        [text, ..] => text.as_slice(),
        [] => &[],
    }
}

// The kind of the newline behind an argument, by the arguments that follow.
fn kind_before(later: &[Bytes]) -> EventKind
    ensures { result ≡ kind_before (length later.now) }
{
    if later.is_empty() {
        EventKind::End
    } else {
        EventKind::Spacer
    }
}
