//! Printing a script.

ghost use Rattle.std.specs.Prelude.{◌≡◌, ◌≤◌, List, [], ◌∷◌, ◌++◌, length, map, decimal, Ok, OnOk, IfOk};
ghost use Rattle.std.specs.List.{flat_map};
ghost use Rattle.std.specs.Fmt.{signed_decimal};
ghost use Rattle.uxn_limits.specs.declared.limits.TheConstants.{TEXT_LIMIT};
ghost use Rattle.hex.specs.Hex.{encode_lower};
ghost use Rattle.text_lines.specs.ScriptHeld.{bytes_in};
ghost use Rattle.text_lines.specs.ScriptLimits.{IsScript};
ghost use Rattle.text_lines.specs.PlainEvents.{plain_event};
ghost use Rattle.play_script.specs.PlainText.{argument_words, clock_words, event_words, line_text, plain_text};
ghost use Rattle.play_script.specs.PlainText.{text_word, value_word, version_words};
ghost use Rattle.text_lines.specs.Scripts.{ScriptView, script_of};
ghost use Rattle.text_lines.specs.declared.script.Event.TheVariants.{Device};
ghost use Rattle.text_lines.specs.declared.script.Version.TheVariants.{First, Second};

use crate::names::{button_name, mouse_button_name};
use input_ports::Input;
use std::alloc::{AllocError, Global};
use text_lines::Value::{self, Button, Byte, Minutes, MouseButton, Pixel, Player, Seconds, Turn};
use text_lines::{Clock, Event, Script, Version};
use uxn_io_traits::{Bytes, decimal};

/// The plain text of a script: `script 2` where that is its version, a line for the clock, one for the arguments if there are
/// any, and one for each event.
/// Where it has at most `TEXT_LIMIT` bytes, reading it gives an equal script.
#[tactic(auto, using(crate::proofs::LineTexts::plain_parts))]
pub fn print_script(alloc: Global, script: &Script) -> Result<Vec<u8>, AllocError>
    ensures { IfOk result (λ text. text.items ≡ plain_text script.now) }
{
    let mut text = Vec::new(alloc);
    put_version(&mut text, script.version_kind())?;
    put_clock(&mut text, script.clock())?;
    put_arguments(alloc, &mut text, script.args())?;
    put_events(&mut text, script.events())?;
    Ok(text)
}

// Puts the line of version 2.
fn put_version(text: &mut Vec<u8>, version: Version) -> Result<(), AllocError>
    ensures { OnOk result (text.new.items ≡ text.old.items ++ flat_map line_text (version_words version)) }
{
    match version {
        Version::First => Ok(()),
        Version::Second => text.extend_from_slice(b"script 2\n".as_slice()),
    }
}

// Puts the line of the clock.
fn put_clock(text: &mut Vec<u8>, clock: Clock) -> Result<(), AllocError>
    ensures { OnOk result (text.new.items ≡ text.old.items ++ line_text (clock_words clock)) }
{
    let values = [Seconds(clock.seconds), Minutes(clock.offset)];
    put_line(text, "clock", values)
}

// Puts the line of the arguments, if there are any.
#[tactic(auto, using(crate::proofs::LineTexts::put_arguments))]
fn put_arguments(alloc: Global, text: &mut Vec<u8>, arguments: &[Bytes]) -> Result<(), AllocError>
    ensures { OnOk result (text.new.items ≡ text.old.items ++ flat_map line_text (argument_words (bytes_in arguments.now))) }
{
    if arguments.is_empty() {
        return Ok(());
    }
    text.extend_from_slice(b"args".as_slice())?;
    put_texts(alloc, text, arguments)?;
    text.extend_from_slice(b"\n".as_slice())
}

// Puts texts as words, with a space before each.
fn put_texts(alloc: Global, text: &mut Vec<u8>, texts: &[Bytes]) -> Result<(), AllocError>
    ensures { OnOk result (text.new.items ≡ text.old.items ++ flat_map (λ each. 32 ∷ text_word each.list) texts.now) }
{
    for each in texts {
        text.extend_from_slice(b" ".as_slice())?;
        put_text(alloc, text, each.as_slice())?;
    }
    Ok(())
}

// Puts bytes as a text word.
fn put_text(alloc: Global, text: &mut Vec<u8>, bytes: &[u8]) -> Result<(), AllocError>
    ensures { OnOk result (text.new.items ≡ text.old.items ++ text_word bytes.now) }
{
    if bytes.is_empty() {
        return text.extend_from_slice(b"\"".as_slice());
    }
    let pairs = hex::encode(alloc, bytes)?;
    text.extend_from_slice(pairs.as_bytes())
}

// Puts the lines of events.
fn put_events(text: &mut Vec<u8>, events: &[Event]) -> Result<(), AllocError>
    ensures { OnOk result (text.new.items ≡ text.old.items ++ flat_map (λ given. line_text (event_words given)) events.now) }
{
    for event in events {
        put_event(text, event)?;
    }
    Ok(())
}

fn put_event(text: &mut Vec<u8>, event: &Event) -> Result<(), AllocError>
    ensures { OnOk result (text.new.items ≡ text.old.items ++ line_text (event_words event.now)) }
{
    let name = event_name(event);
    match *event {
        Event::Input(byte) => put_line(text, name, [Byte(byte)]),
        Event::EndInput | Event::Frame | Event::Shot => put_line(text, name, []),
        Event::Device(input) => put_input(text, name, &input),
        Event::Expect(port, byte) => put_line(text, name, [Byte(port), Byte(byte)]),
    }
}

// The first word of an event's line.
fn event_name(event: &Event) -> &'static str
    ensures { result.now ≡ (plain_event event.now).1 }
{
    match *event {
        Event::Input(_) => "input",
        Event::EndInput => "end",
        Event::Frame => "frame",
        Event::Device(input) => input_name(&input),
        Event::Shot => "shot",
        Event::Expect(..) => "expect",
    }
}

// The first word of an input's line.
fn input_name(input: &Input) -> &'static str
    ensures { result.now ≡ (plain_event (Device input.now)).1 }
{
    match *input {
        Input::Key(_) => "key",
        Input::Down(_) | Input::DownOf(..) => "down",
        Input::Up(_) | Input::UpOf(..) => "up",
        Input::Mouse(..) => "mouse",
        Input::Press(_) => "press",
        Input::Release(_) => "release",
        Input::Scroll(..) => "scroll",
    }
}

// Puts a line of this first word and the values of an input.
fn put_input(text: &mut Vec<u8>, name: &str, input: &Input) -> Result<(), AllocError>
    ensures { OnOk result (text.new.items ≡ text.old.items ++ line_text (name.now ∷ map value_word (plain_event (Device input.now)).2)) }
{
    match *input {
        Input::Key(byte) => put_line(text, name, [Byte(byte)]),
        Input::Down(mask) | Input::Up(mask) => put_line(text, name, [Button(mask)]),
        Input::Mouse(x, y) => put_line(text, name, [Pixel(x), Pixel(y)]),
        Input::Press(mask) | Input::Release(mask) => put_line(text, name, [MouseButton(mask)]),
        Input::Scroll(x, y) => put_line(text, name, [Turn(x), Turn(y)]),
        Input::DownOf(player, mask) | Input::UpOf(player, mask) => {
            put_line(text, name, [Button(mask), Player(player)])
        }
    }
}

// Puts a line of a word and values.
#[tactic(auto, using(crate::proofs::LineTexts::put_values))]
fn put_line<const N: usize>(
    text: &mut Vec<u8>,
    name: &str,
    values: [Value; N],
) -> Result<(), AllocError>
    ensures { OnOk result (text.new.items ≡ text.old.items ++ line_text (name.now ∷ map value_word values.entry)) }
{
    text.extend_from_slice(name.as_bytes())?;
    put_values(text, values.as_slice())?;
    text.extend_from_slice(b"\n".as_slice())
}

// Puts values with a space before each.
fn put_values(text: &mut Vec<u8>, values: &[Value]) -> Result<(), AllocError>
    ensures { OnOk result (text.new.items ≡ text.old.items ++ flat_map (λ value. 32 ∷ value_word value) values.now) }
{
    for value in values {
        text.extend_from_slice(b" ".as_slice())?;
        put_value(text, *value)?;
    }
    Ok(())
}

#[tactic(auto, unfolding(crate::specs::PlainText::value_word))]
fn put_value(text: &mut Vec<u8>, value: Value) -> Result<(), AllocError>
    ensures { OnOk result (text.new.items ≡ text.old.items ++ value_word value) }
{
    match value {
        Byte(byte) => text.extend_from_slice(pair(byte).as_slice()),
        Button(mask) => text.extend_from_slice(button_name(mask)),
        MouseButton(mask) => text.extend_from_slice(mouse_button_name(mask)),
        Player(number) => put_number(text, u64::from(number)),
        Pixel(at) => put_number(text, u64::from(at)),
        Turn(steps) => put_signed(text, i64::from(steps)),
        Seconds(seconds) => put_signed(text, seconds),
        Minutes(minutes) => put_signed(text, i64::from(minutes)),
    }
}

// The two digits of a byte.
fn pair(byte: u8) -> [u8; 2]
    ensures { result ≡ encode_lower (byte ∷ []) }
{
    let mut pair = [0; 2];
    let _ = hex::encode_to_slice([byte].as_slice(), &mut pair);
    pair
}

fn put_number(text: &mut Vec<u8>, number: u64) -> Result<(), AllocError>
    ensures { OnOk result (text.new.items ≡ text.old.items ++ decimal number) }
{
    text.extend_from_slice(decimal(number).as_slice())
}

// Puts a number, with `-` before one below 0.
fn put_signed(text: &mut Vec<u8>, number: i64) -> Result<(), AllocError>
    ensures { OnOk result (text.new.items ≡ text.old.items ++ signed_decimal number) }
{
    if number < 0 {
        text.extend_from_slice(b"-".as_slice())?;
    }
    put_number(text, number.unsigned_abs())
}

/// The plain text of a script reads as an equal script, where it is not too long.
pub fn printed_scripts_are_read()
    ensures { (script : ScriptView) → IsScript script → length (plain_text script) ≤ TEXT_LIMIT → script_of (plain_text script) ≡ Ok script }
{}
