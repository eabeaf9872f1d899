//! What the words behind a line's first word represent.

ghost use Rattle.std.specs.Prelude.{◌≡◌, ◌+◌, ◌<◌, ◌≤◌, length, option_map, pos, IfOk, IfSome};
ghost use Rattle.std.specs.List.{All};
ghost use Rattle.uxn_limits.specs.declared.limits.TheConstants.{LAST_OFFSET, LAST_SECOND};
ghost use Rattle.text_lines.specs.Lines.{words_of};
ghost use Rattle.text_lines.specs.Named.{value_named};
ghost use Rattle.text_lines.specs.Numbers.{integer_within, number_within};
ghost use Rattle.text_lines.specs.ScriptHeld.{bytes_if};
ghost use Rattle.text_lines.specs.ScriptRows.{buttons, mouse_buttons};
ghost use Rattle.text_lines.specs.ScriptLimits.{IsBit, IsValue};
ghost use Rattle.text_lines.specs.ScriptValues.{text_of_values, one_or};
ghost use Rattle.text_lines.specs.declared.values.Value.TheVariants.{Minutes, Pixel, Seconds, Turn};

use super::{Named, begins_with, first_word, integer_within, number_within, value_named};
use hex::FromHexError;
use std::alloc::{AllocError, Global};
use uxn_io_traits::Bytes;
use uxn_limits::limits;

/// A value of a line in plain text.
#[derive(Clone, Copy)]
pub enum Value {
    Byte(u8),
    /// A controller's button, by its bit.
    Button(u8),
    /// A mouse's button, by its bit.
    MouseButton(u8),
    Player(u8),
    Pixel(u16),
    Turn(i16),
    Seconds(i64),
    Minutes(i32),
}

// A text: `"` and bytes, or pairs of hexadecimal digits.
#[tactic(auto, unfolding(crate::specs::ScriptValues::text_of_values))]
pub(crate) fn text_of_values(alloc: Global, word: &[u8]) -> Result<Option<Bytes>, AllocError>
    requires { 0 < length word.now }
    ensures text { IfOk result (λ text. bytes_if text ≡ text_of_values word.now) }
    ensures short { IfOk result (λ text. IfSome text (λ bytes. length bytes.list + 1 ≤ length word.now)) }
    ensures bytes { IfOk result (λ text. IfSome text (λ bytes. All (λ byte. byte < 256) bytes.list)) }
{
    if begins_with(b'"', word) {
        return Ok(Some(Bytes::new(alloc, &word[1..])?));
    }
    match hex::decode(alloc, word) {
        Ok(bytes) => Ok(Some(Bytes::from(bytes))),
        Err(FromHexError::OutOfMemory) => Err(AllocError),
        Err(_) => Ok(None),
    }
}

// The first word as a number from 1; it is 1 where there is no word.
#[tactic(auto, unfolding(crate::specs::ScriptValues::one_or))]
pub(crate) fn one_or(most: u32, values: &[u8]) -> Option<u32>
    requires { 1 ≤ most }
    ensures number { result ≡ one_or most (words_of values.now) }
    ensures within { IfSome result (λ number. (1 ≤ number) × (number ≤ most)) }
{
    let Some((word, _)) = first_word(values) else {
        return Some(1);
    };
    let number = number_within(1, u64::from(most), word)?;
    Some(number as u32)
}

// A column or row of the screen.
pub(crate) fn pixel_of(word: &[u8]) -> Option<u16>
    ensures pixel { result ≡ number_within 0 65535 word.now }
    ensures within { IfSome result (λ at. IsValue (Pixel at)) }
{
    let at = number_within(0, 65535, word)?;
    Some(at as u16)
}

// How far a wheel was turned.
pub(crate) fn turn_of(word: &[u8]) -> Option<i16>
    ensures turn { result ≡ integer_within 32768 32767 word.now }
    ensures within { IfSome result (λ steps. IsValue (Turn steps)) }
{
    let steps = integer_within(32768, 32767, word)?;
    Some(steps as i16)
}

// The seconds of a clock.
pub(crate) fn seconds_of(word: &[u8]) -> Option<i64>
    ensures seconds { result ≡ option_map pos (number_within 0 LAST_SECOND word.now) }
    ensures within { IfSome result (λ seconds. IsValue (Seconds seconds)) }
{
    let seconds = number_within(0, limits::LAST_SECOND, word)?;
    Some(seconds as i64)
}

// The minutes by which a clock is ahead.
pub(crate) fn minutes_of(word: &[u8]) -> Option<i32>
    ensures minutes { result ≡ integer_within LAST_OFFSET LAST_OFFSET word.now }
    ensures within { IfSome result (λ minutes. IsValue (Minutes minutes)) }
{
    let minutes = integer_within(limits::LAST_OFFSET, limits::LAST_OFFSET, word)?;
    Some(minutes as i32)
}

/// The controller's buttons by their names, with their bits (Varvara device reference).
pub static BUTTONS: [Named<u8>; 8] = [
    ("a", 0x01),
    ("b", 0x02),
    ("select", 0x04),
    ("start", 0x08),
    ("up", 0x10),
    ("down", 0x20),
    ("left", 0x40),
    ("right", 0x80),
];

/// The mouse's buttons, which are numbered from 1.
pub static MOUSE_BUTTONS: [Named<u8>; 8] = [
    ("1", 0x01),
    ("2", 0x02),
    ("3", 0x04),
    ("4", 0x08),
    ("5", 0x10),
    ("6", 0x20),
    ("7", 0x40),
    ("8", 0x80),
];

// The bit of a controller's button.
#[tactic(auto, unfolding(crate::specs::Named::value_named))]
pub(crate) fn button_bit(word: &[u8]) -> Option<u8>
    ensures button { result ≡ value_named buttons word.now }
    ensures bit { IfSome result IsBit }
{
    value_named(BUTTONS.as_slice(), word)
}

// The bit of a mouse's button.
#[tactic(auto, unfolding(crate::specs::Named::value_named))]
pub(crate) fn mouse_button_bit(word: &[u8]) -> Option<u8>
    ensures button { result ≡ value_named mouse_buttons word.now }
    ensures bit { IfSome result IsBit }
{
    value_named(MOUSE_BUTTONS.as_slice(), word)
}
