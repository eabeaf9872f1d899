//! Scripts and what they hold.

ghost use Rattle.std.specs.Prelude.{◌≡◌, List};

use super::TextStop;
use input_ports::Input;
use std::alloc::AllocError;
use std::marker::Model;
use uxn_io_traits::Bytes;

/// The moment at which a script begins.
#[derive(Clone, Copy)]
pub struct Clock {
    /// Seconds since 1970-01-01 00:00:00 UTC, 0 to `LAST_SECOND`.
    pub seconds: i64,
    /// How many minutes the clock is ahead of UTC, at most `LAST_OFFSET` to either side.
    pub offset: i32,
}

/// Which lines a script may have.
#[derive(Clone, Copy)]
pub enum Version {
    /// Version 1.
    First,
    /// Version 2, which has `script`, `expect`, counts of keys and the players 2 to 4.
    Second,
}

/// What a program is given.
#[derive(Clone, Copy)]
pub enum Event {
    /// A byte of the console's input.
    Input(u8),
    /// The end of the console's input.
    EndInput,
    /// A frame, the sixtieth part of a second.
    Frame,
    /// What a player does at the controller or the mouse.
    Device(Input),
    /// The picture is kept.
    Shot,
    /// What a port reads is compared with a byte.
    Expect(u8, u8),
}

/// A script: its version, a clock, the arguments of the program and the events.
#[derive(Drop)]
pub struct Script {
    version: Version,
    clock: Clock,
    arguments: Vec<Bytes>,
    events: Vec<Event>,
}

impl Model for Script {
    ghost use Rattle.text_lines.specs.ScriptHeld.{bytes_in};
    ghost use Rattle.text_lines.specs.ScriptLimits.{IsScript};
    ghost use Rattle.text_lines.specs.Scripts.{ScriptView, script_with};

    ghost Value = { ScriptView };

    ghost view = { λ s. script_with s.version s.clock (bytes_in s.arguments.items) s.events.items };

    ghost invariant = { λ s. IsScript (script_with s.version s.clock (bytes_in s.arguments.items) s.events.items) };
}

impl Script {
    ghost use Rattle.std.specs.Prelude.{◌≡◌};
    ghost use Rattle.text_lines.specs.ScriptHeld.{bytes_in};
    ghost use Rattle.text_lines.specs.ScriptLimits.{IsScript};
    ghost use Rattle.text_lines.specs.Scripts.{script_with, version_number};

    /// A script of these parts.
    pub(crate) fn new(
        version: Version,
        clock: Clock,
        arguments: Vec<Bytes>,
        events: Vec<Event>,
    ) -> Script
        requires { IsScript (script_with version clock (bytes_in arguments.items) events.items) }
        ensures { result ≡ script_with version clock (bytes_in arguments.items) events.items }
    {
        Script {
            version,
            clock,
            arguments,
            events,
        }
    }

    /// Tells contracts what holds of every script: the ranges of its clock, at most `MOST_EVENTS` events, and at most
    /// `TEXT_LIMIT` bytes and spacers of arguments.
    pub fn known(&self)
        ensures { IsScript self.now }
    {
        let _clock = self.clock;
    }

    /// The version as a value to match on: `First` for 1, `Second` for 2.
    pub fn version_kind(&self) -> Version
        ensures { result ≡ self.now.version }
    {
        self.version
    }

    /// The number of the version, 1 or 2.
    pub fn version(&self) -> u8
        ensures { result ≡ version_number self.now.version }
    {
        match self.version {
            Version::First => 1,
            Version::Second => 2,
        }
    }

    /// The arguments of the program, in order.
    pub fn args(&self) -> &[Bytes]
        ensures { bytes_in result.now ≡ self.now.arguments }
    {
        self.arguments.as_slice()
    }

    /// The moment at which the script begins.
    pub fn clock(&self) -> Clock
        ensures { result ≡ self.now.clock }
    {
        self.clock
    }

    /// The events, in order.
    pub fn events(&self) -> &[Event]
        ensures { result.now ≡ self.now.events }
    {
        self.events.as_slice()
    }
}

/// What can be wrong with a line of a script, numbered from 1 in this order.
#[derive(Clone, Copy, Debug)]
pub enum ScriptKind {
    /// The first word is none of the script's version.
    Unknown,
    /// A value is not of its form or not within its range.
    BadValue,
    /// There are too few values.
    Missing,
    /// There are too many values.
    Extra,
    /// `args` or `clock` stands after a line that gives an event, or after a line of the same word; or `script` stands on
    /// another line than the first with words.
    Late,
    /// With this line there are more than `MOST_EVENTS` events.
    ManyEvents,
    /// The script has more than `TEXT_LIMIT` bytes.
    LongScript,
}

impl ScriptKind {
    ghost use Rattle.text_lines.specs.ScriptKinds.{script_kind_name};

    /// The name of the kind, as it is printed.
    pub fn name(self) -> &'static str
        ensures { result.now ≡ script_kind_name self }
    {
        match self {
            ScriptKind::Unknown => "Unknown",
            ScriptKind::BadValue => "BadValue",
            ScriptKind::Missing => "Missing",
            ScriptKind::Extra => "Extra",
            ScriptKind::Late => "Late",
            ScriptKind::ManyEvents => "ManyEvents",
            ScriptKind::LongScript => "LongScript",
        }
    }
}

/// Why a script is not read.
pub type ScriptStop = TextStop<ScriptKind>;

// What stops a line.
#[derive(Drop)]
pub(crate) enum LineStop {
    Faulty(ScriptKind),
    NoMemory,
}

impl From<AllocError> for LineStop {
    ghost use Rattle.text_lines.specs.declared.script.LineStop.TheVariants.{NoMemory};

    ghost from_gives = { λ _ stop. stop ≡ NoMemory };

    fn from(_error: AllocError) -> LineStop {
        LineStop::NoMemory
    }
}
