//! Reading a script.

ghost use Rattle.std.specs.Prelude.{◌≡◌, ℕ, ◌+◌, ◌≤◌, List, ◌∷◌, ◌++◌, codes, length, map, Ok, IfOk, OnOk};
ghost use Rattle.uxn_limits.specs.declared.limits.TheConstants.{TEXT_LIMIT};
ghost use Rattle.text_lines.specs.Lines.{words_of, lines_of};
ghost use Rattle.text_lines.specs.Reading.{ReadsText};
ghost use Rattle.text_lines.specs.ScriptHeld.{bytes_in};
ghost use Rattle.text_lines.specs.ScriptRows.{inputs_of};
ghost use Rattle.text_lines.specs.Scripts.{script_of, version_at, version_in, ScriptView};
ghost use Rattle.text_lines.specs.ScriptGathered.{at_line};
ghost use Rattle.text_lines.specs.declared.script.Event.TheVariants.{Input};
ghost use Rattle.text_lines.specs.declared.script.Version.TheVariants.{First, Second};

use super::script::{Clock, Event, LineStop, Script, ScriptKind, ScriptStop, Version};
use super::script_line::{Meaning, script_line_of};
use super::{Lines, begins_with, first_word};
use std::alloc::{AllocError, Global};
use std::marker::Model;
use uxn_io_traits::Bytes;
use uxn_limits::limits;

/// Reads a script of at most `TEXT_LIMIT` bytes and `MOST_EVENTS` events. Refused with the first faulty line, counted from 1,
/// and the first fault there.
#[tactic(auto, unfolding(crate::specs::Scripts::script_of))]
pub fn read_script(alloc: Global, text: &[u8]) -> Result<Script, ScriptStop>
    ensures { ReadsText result (script_of text.now) }
{
    if text.len() > limits::TEXT_LIMIT {
        return Err(ScriptStop::Refused {
            line: 1,
            kind: ScriptKind::LongScript,
        });
    }
    let mut gathered = Gathered::new(alloc, version_of(text));
    let mut lines = Lines::new(text);
    while let Some(line) = lines.next_line() {
        match gathered.take_line(alloc, line) {
            Ok(()) => {}
            Err(stop) => return Err(at_line(lines.number(), stop)),
        }
    }
    Ok(gathered.into_script(alloc))
}

// The version of a script: the first word of its first line with words tells it.
fn version_of(text: &[u8]) -> Version
    requires { length text.now ≤ TEXT_LIMIT }
    ensures { result ≡ version_in (lines_of text.now) }
{
    let mut lines = Lines::new(text);
    while let Some(line) = lines.next_line() {
        if let Some(version) = version_at(line) {
            return version;
        }
    }
    Version::First
}

// The version that a line with words tells, where it is the first.
fn version_at(line: &[u8]) -> Option<Version>
    ensures { result ≡ version_at (words_of line.now) }
{
    match first_word(line) {
        Some((name, _)) if begins_with(b'#', name) => None,
        Some((name, _)) if name == b"script".as_slice() => Some(Version::Second),
        Some(_) => Some(Version::First),
        None => None,
    }
}

// What stops a script whose line stops.
fn at_line(line: u32, stop: LineStop) -> ScriptStop
    ensures { result ≡ at_line line stop }
{
    match stop {
        LineStop::Faulty(kind) => ScriptStop::Refused { line, kind },
        LineStop::NoMemory => ScriptStop::NoMemory,
    }
}

// What the lines so far gave.
#[derive(Drop)]
struct Gathered {
    version: Version,
    begun: bool,
    clock: Option<Clock>,
    arguments: Option<Vec<Bytes>>,
    events: Vec<Event>,
}

impl Model for Gathered {
    ghost use Rattle.text_lines.specs.ScriptHeld.{texts_if};
    ghost use Rattle.text_lines.specs.ScriptGathered.{IsGatheredScript, so_far};
    ghost use Rattle.text_lines.specs.Scripts.{GatheredView};

    ghost Value = { GatheredView };

    ghost view = { λ g. so_far g.version g.begun g.clock (texts_if g.arguments) g.events.items };

    ghost invariant = { λ g. IsGatheredScript (so_far g.version g.begun g.clock (texts_if g.arguments) g.events.items) };
}

impl Gathered {
    ghost use Rattle.std.specs.Prelude.{◌≤◌, [], length, replicate};
    ghost use Rattle.std.specs.List.{All};
    ghost use Rattle.uxn_limits.specs.declared.limits.TheConstants.{TEXT_LIMIT};
    ghost use Rattle.text_lines.specs.Lines.{words_of};
    ghost use Rattle.text_lines.specs.ScriptRows.{version, clock, arguments, events, script_line_of};
    ghost use Rattle.text_lines.specs.Scripts.{gathered, finished_script};
    ghost use Rattle.text_lines.specs.ScriptGathered.{shown, IsScriptRead, TakesMeaning, TakesLine};
    ghost use Rattle.text_lines.specs.ScriptHeld.{bytes_in};
    ghost use Rattle.text_lines.specs.ScriptLimits.{AreTexts, IsEvent, IsTime};

    // What no lines give.
    fn new(alloc: Global, version: Version) -> Gathered
        ensures { result ≡ gathered version [] }
    {
        Gathered {
            version,
            begun: false,
            clock: None,
            arguments: None,
            events: Vec::new(alloc),
        }
    }

    // Takes what a line gives. Nothing is taken of a line with a fault.
    fn take_line(&mut self, alloc: Global, line: &[u8]) -> Result<(), LineStop>
        requires { length line.now ≤ TEXT_LIMIT }
        ensures { TakesLine self.old (script_line_of self.old.version (words_of line.now)) result self.new }
    {
        match script_line_of(alloc, self.version, line)? {
            None => Ok(()),
            Some(meaning) => self.take(alloc, meaning),
        }
    }

    fn take(&mut self, alloc: Global, meaning: Meaning) -> Result<(), LineStop>
        requires { IsScriptRead self.old.version TEXT_LIMIT meaning }
        ensures { TakesMeaning self.old (shown meaning) result self.new }
    {
        match meaning {
            Meaning::VersionLine => self.take_version(),
            Meaning::ClockLine(clock) => self.take_clock(clock),
            Meaning::Arguments(arguments) => self.take_arguments(arguments),
            Meaning::Inputs(texts) => self.take_inputs(alloc, texts),
            Meaning::Times(event, count) => self.take_times(event, count as usize),
        }
    }

    fn take_version(&mut self) -> Result<(), LineStop>
        ensures { TakesMeaning self.old version result self.new }
    {
        if self.begun {
            return Err(LineStop::Faulty(ScriptKind::Late));
        }
        self.begun = true;
        Ok(())
    }

    fn take_clock(&mut self, time: Clock) -> Result<(), LineStop>
        requires { IsTime time }
        ensures { TakesMeaning self.old (clock time) result self.new }
    {
        if !self.events.is_empty() || self.clock.is_some() {
            return Err(LineStop::Faulty(ScriptKind::Late));
        }
        self.begun = true;
        self.clock = Some(time);
        Ok(())
    }

    fn take_arguments(&mut self, texts: Vec<Bytes>) -> Result<(), LineStop>
        requires { AreTexts TEXT_LIMIT (bytes_in texts.items) }
        ensures { TakesMeaning self.old (arguments (bytes_in texts.items)) result self.new }
    {
        if !self.events.is_empty() || self.arguments.is_some() {
            return Err(LineStop::Faulty(ScriptKind::Late));
        }
        self.begun = true;
        self.arguments = Some(texts);
        Ok(())
    }

    fn take_inputs(&mut self, alloc: Global, texts: Vec<Bytes>) -> Result<(), LineStop>
        requires { AreTexts TEXT_LIMIT (bytes_in texts.items) }
        ensures { TakesMeaning self.old (events (inputs_of (bytes_in texts.items))) result self.new }
    {
        let given = inputs_of(alloc, &texts)?;
        self.take_events(&given)
    }

    fn take_events(&mut self, given: &[Event]) -> Result<(), LineStop>
        requires { All (IsEvent self.old.version) given.now }
        ensures { TakesMeaning self.old (events given.now) result self.new }
    {
        if given.len() > limits::MOST_EVENTS - self.events.len() {
            return Err(LineStop::Faulty(ScriptKind::ManyEvents));
        }
        self.begun = true;
        self.events.extend_from_slice(given)?;
        Ok(())
    }

    fn take_times(&mut self, given: Event, count: usize) -> Result<(), LineStop>
        requires { IsEvent self.old.version given }
        ensures { TakesMeaning self.old (events (replicate count given)) result self.new }
    {
        if count > limits::MOST_EVENTS - self.events.len() {
            return Err(LineStop::Faulty(ScriptKind::ManyEvents));
        }
        let all = self.events.len() + count;
        self.begun = true;
        self.events.resize(all, given)?;
        Ok(())
    }

    // The script of all lines.
    fn into_script(self, alloc: Global) -> Script
        ensures { result ≡ finished_script self }
    {
        let Gathered {
            version,
            clock,
            arguments,
            events,
            ..
        } = self;
        let start = Clock {
            seconds: 0,
            offset: 0,
        };
        Script::new(
            version,
            clock.unwrap_or(start),
            arguments.unwrap_or(Vec::new(alloc)),
            events,
        )
    }
}

// An event for each byte of texts.
fn inputs_of(alloc: Global, texts: &Vec<Bytes>) -> Result<Vec<Event>, AllocError>
    ensures { IfOk result (λ given. given.items ≡ inputs_of (bytes_in texts.now.items)) }
{
    let mut given = Vec::new(alloc);
    for text in texts {
        push_bytes(&mut given, text.as_slice())?;
    }
    Ok(given)
}

// Adds an event for each byte.
fn push_bytes(events: &mut Vec<Event>, bytes: &[u8]) -> Result<(), AllocError>
    ensures { OnOk result (events.new.items ≡ events.old.items ++ map Input bytes.now) }
{
    for byte in bytes {
        events.push(Event::Input(*byte))?;
    }
    Ok(())
}

/// A text of version 1 is read by version 2 too, with the same clock, arguments and events, where `script 2` stands before it.
pub fn version_2_reads_version_1()
    ensures { (text : List ℕ) (script : ScriptView) → length text + 9 ≤ TEXT_LIMIT → script_of text ≡ Ok script → script.version ≡ First
        → script_of (codes "script 2" ++ 10 ∷ text) ≡ Ok (record script { version = Second }) }
{}
