//! What a line means.

ghost use Rattle.std.specs.Prelude.{◌≡◌, ◌≢◌, ◌≤◌, ℕ, length, option_map, IfOk, IfSome};
ghost use Rattle.text_lines.specs.Lines.{words_of};
ghost use Rattle.input_ports.specs.declared.Input.{Input as DeviceInput};
ghost use Rattle.text_lines.specs.ScriptGathered.{shown, FitsLine, IsScriptRead};
ghost use Rattle.text_lines.specs.ScriptHeld.{bytes_in, texts_if};
ghost use Rattle.text_lines.specs.ScriptLimits.{AreTexts, IsBit, IsEvent, IsPlayer, IsSecond, IsTime};
ghost use Rattle.text_lines.specs.ScriptRows.{script_meaning_of, script_line_of, device_of, version_of};
ghost use Rattle.text_lines.specs.ScriptRows.{clock, clock_of_values, events, keys_of, expect_of};
ghost use Rattle.text_lines.specs.ScriptRows.{further, buttons_of, down_of, up_of, mouse_buttons_of, mouse_of, scroll_of};
ghost use Rattle.text_lines.specs.ScriptValues.{one_or, texts_of_values, two_words};
ghost use Rattle.text_lines.specs.declared.script_word.Keyword.TheVariants as word;
ghost use Rattle.text_lines.specs.declared.script_line.Meaning.TheVariants as read;
ghost use Rattle.text_lines.specs.declared.script.Event.TheVariants.{Device, Frame};
ghost use Rattle.text_lines.specs.declared.script.Version.{Version};

use super::script::{Clock, Event, LineStop, ScriptKind, Version};
use super::script_word::{Keyword, rows_of};
use super::values::{
    button_bit, minutes_of, mouse_button_bit, one_or, pixel_of, seconds_of, text_of_values, turn_of,
};
use super::{LineFault, byte_of, first_word, keyword_of};
use input_ports::Input;
use std::alloc::{AllocError, Global};
use uxn_io_traits::Bytes;
use uxn_limits::limits;

/// The most frames or keys of a line.
const MOST_TIMES: u32 = limits::MOST_TIMES as u32;

/// The players of a controller.
const PLAYERS: u32 = 4;

// What a line means.
#[derive(Drop)]
pub(crate) enum Meaning {
    VersionLine,
    ClockLine(Clock),
    Arguments(Vec<Bytes>),
    Inputs(Vec<Bytes>),
    Times(Event, u32),
}

impl From<LineFault> for LineStop {
    ghost use Rattle.text_lines.specs.Rows.{fault_named};
    ghost use Rattle.text_lines.specs.declared.script.ScriptKind.TheVariants.{Unknown, Missing, Extra};
    ghost use Rattle.text_lines.specs.declared.script.LineStop.TheVariants.{Faulty};

    ghost from_gives = { λ fault stop. stop ≡ Faulty (fault_named Unknown Missing Extra fault) };

    fn from(fault: LineFault) -> LineStop {
        LineStop::Faulty(match fault {
            LineFault::Unknown => ScriptKind::Unknown,
            LineFault::Missing => ScriptKind::Missing,
            LineFault::Extra => ScriptKind::Extra,
        })
    }
}

// What a line of a version means, if it has words, or what is wrong with it by itself.
#[tactic(auto, unfolding(crate::specs::ScriptRows::script_line_of))]
pub(crate) fn script_line_of(
    alloc: Global,
    version: Version,
    line: &[u8],
) -> Result<Option<Meaning>, LineStop>
    ensures fits { FitsLine result (script_line_of version (words_of line.now)) }
    ensures limits { IfOk result (λ given. IfSome given (IsScriptRead version (length line.now))) }
{
    match keyword_of(rows_of(version), line)? {
        Some((keyword, values)) => match script_meaning_of(alloc, version, keyword, values)? {
            Some(meaning) => Ok(Some(meaning)),
            None => Err(LineStop::Faulty(ScriptKind::BadValue)),
        },
        None => Ok(None),
    }
}

// What the values behind a first word make, as many as it takes; nothing where one is not of its form or range.
#[tactic(auto, unfolding(crate::specs::ScriptRows::script_meaning_of, crate::specs::ScriptRows::events_of_line))]
fn script_meaning_of(
    alloc: Global,
    version: Version,
    keyword: Keyword,
    values: &[u8],
) -> Result<Option<Meaning>, AllocError>
    ensures made { IfOk result (λ made. option_map shown made ≡ script_meaning_of keyword version (words_of values.now)) }
    ensures limits { IfOk result (λ made. IfSome made (IsScriptRead version (length values.now))) }
{
    match keyword {
        Keyword::Args => Ok(texts_of_values(alloc, values)?.map(Meaning::Arguments)),
        Keyword::Input => Ok(texts_of_values(alloc, values)?.map(Meaning::Inputs)),
        _ => Ok(meaning_without_texts(version, keyword, values)),
    }
}

// What the values of a line without texts make.
#[tactic(auto, unfolding(crate::specs::ScriptRows::script_meaning_of, crate::specs::ScriptRows::events_of_line))]
fn meaning_without_texts(version: Version, keyword: Keyword, values: &[u8]) -> Option<Meaning>
    requires no_arguments { keyword ≢ word.Args }
    requires no_inputs { keyword ≢ word.Input }
    ensures made { option_map shown result ≡ script_meaning_of keyword version (words_of values.now) }
    ensures limits { IfSome result (IsScriptRead version 0) }
{
    match keyword {
        Keyword::Script => version_of(version, values),
        Keyword::Clock => clock_of_values(values).map(Meaning::ClockLine),
        Keyword::End => Some(Meaning::Times(Event::EndInput, 1)),
        Keyword::Frame => one_or(MOST_TIMES, values).map(frames),
        Keyword::Key => keys_of(version, values),
        Keyword::Shot => Some(Meaning::Times(Event::Shot, 1)),
        Keyword::Expect => expect_of(version, values),
        _ => device_of(keyword, version, values).map(by_player),
    }
}

// So many frames.
fn frames(count: u32) -> Meaning
    ensures { result ≡ read.Times Frame count }
{
    Meaning::Times(Event::Frame, count)
}

// What the player does once.
fn by_player(input: Input) -> Meaning
    ensures { result ≡ read.Times (Device input) 1 }
{
    Meaning::Times(Event::Device(input), 1)
}

// What the player does by a keyword, if it is that of an input.
#[tactic(auto, unfolding(crate::specs::ScriptRows::device_of))]
fn device_of(keyword: Keyword, version: Version, values: &[u8]) -> Option<Input>
    ensures input { result ≡ device_of keyword version (words_of values.now) }
    ensures limits { IfSome result (λ input. IsEvent version (Device input)) }
{
    match keyword {
        Keyword::Down => button_in(version, values).map(down_of),
        Keyword::Up => button_in(version, values).map(up_of),
        Keyword::Mouse => mouse_of(values),
        Keyword::Press => mouse_button_in(values).map(Input::Press),
        Keyword::Release => mouse_button_in(values).map(Input::Release),
        Keyword::Scroll => scroll_of(values),
        _ => None,
    }
}

// A button goes down: that of the first player, or of another.
fn down_of(button: (u8, u8)) -> Input
    ensures { result ≡ down_of button.0 button.1 }
{
    match button {
        (mask, 1) => Input::Down(mask),
        (mask, player) => Input::DownOf(player, mask),
    }
}

// A button goes up: that of the first player, or of another.
fn up_of(button: (u8, u8)) -> Input
    ensures { result ≡ up_of button.0 button.1 }
{
    match button {
        (mask, 1) => Input::Up(mask),
        (mask, player) => Input::UpOf(player, mask),
    }
}

#[tactic(auto, unfolding(crate::specs::ScriptRows::version_of))]
fn version_of(version: Version, values: &[u8]) -> Option<Meaning>
    ensures made { option_map shown result ≡ version_of version (words_of values.now) }
    ensures limits { IfSome result (λ m. m ≡ read.VersionLine) }
{
    match version {
        Version::First => None,
        Version::Second => match first_word(values) {
            Some((number, _)) if number == b"2".as_slice() => Some(Meaning::VersionLine),
            _ => None,
        },
    }
}

// The first two words.
fn two_words(values: &[u8]) -> Option<(&[u8], &[u8])>
    ensures { option_map (λ two. (two.0.now, two.1.now)) result ≡ two_words (words_of values.now) }
{
    let (first, more) = first_word(values)?;
    let (second, _) = first_word(more)?;
    Some((first, second))
}

#[tactic(auto, unfolding(crate::specs::ScriptRows::clock_of_values))]
fn clock_of_values(values: &[u8]) -> Option<Clock>
    ensures made { result ≡ clock_of_values (words_of values.now) }
    ensures limits { IfSome result IsTime }
{
    let (seconds, offset) = two_words(values)?;
    match (seconds_of(seconds), minutes_of(offset)) {
        (Some(seconds), Some(offset)) => Some(Clock { seconds, offset }),
        _ => None,
    }
}

#[tactic(auto, unfolding(crate::specs::ScriptRows::keys_of))]
fn keys_of(version: Version, values: &[u8]) -> Option<Meaning>
    ensures made { option_map shown result ≡ option_map events (keys_of version (words_of values.now)) }
    ensures limits { IfSome result (IsScriptRead version 0) }
{
    let (word, more) = first_word(values)?;
    match (byte_of(word), further_of(version, MOST_TIMES, more)) {
        (Some(byte), Some(count)) => Some(Meaning::Times(Event::Device(Input::Key(byte)), count)),
        _ => None,
    }
}

#[tactic(auto, unfolding(crate::specs::ScriptRows::expect_of))]
fn expect_of(version: Version, values: &[u8]) -> Option<Meaning>
    ensures made { option_map shown result ≡ option_map events (expect_of version (words_of values.now)) }
    ensures limits { IfSome result (IsScriptRead version 0) }
{
    match version {
        Version::First => None,
        Version::Second => {
            let (port, byte) = two_words(values)?;
            match (byte_of(port), byte_of(byte)) {
                (Some(port), Some(byte)) => Some(Meaning::Times(Event::Expect(port, byte), 1)),
                _ => None,
            }
        }
    }
}

// How often a key is struck or which player's a button is, which version 1 does not say.
#[tactic(auto, unfolding(crate::specs::ScriptValues::one_or))]
fn further_of(version: Version, most: u32, values: &[u8]) -> Option<u32>
    requires { 1 ≤ most }
    ensures number { result ≡ one_or most (further version (words_of values.now)) }
    ensures limits { IfSome result (λ number. (1 ≤ number) × (number ≤ most) × (number ≢ 1 → IsSecond version)) }
{
    match version {
        Version::First => Some(1),
        Version::Second => one_or(most, values),
    }
}

// The player whose a controller's button is.
fn player_of(version: Version, values: &[u8]) -> Option<u8>
    ensures number { result ≡ one_or 4 (further version (words_of values.now)) }
    ensures limits { IfSome result (λ player. player ≢ 1 → IsPlayer version player) }
{
    let player = further_of(version, PLAYERS, values)?;
    Some(player as u8)
}

// The bit of a controller's button, and the player whose it is.
#[tactic(auto, unfolding(crate::specs::ScriptRows::buttons_of))]
fn button_in(version: Version, values: &[u8]) -> Option<(u8, u8)>
    ensures input { (make : ℕ → ℕ → DeviceInput) → option_map (λ b. make b.0 b.1) result ≡ buttons_of make version (words_of values.now) }
    ensures limits { IfSome result (λ b. IsBit b.0 × (b.1 ≢ 1 → IsPlayer version b.1)) }
{
    let (word, more) = first_word(values)?;
    button_bit(word).zip(player_of(version, more))
}

#[tactic(auto, unfolding(crate::specs::ScriptRows::mouse_buttons_of))]
fn mouse_button_in(values: &[u8]) -> Option<u8>
    ensures bit { IfSome result IsBit }
    ensures input { (make : ℕ → DeviceInput) → option_map make result ≡ mouse_buttons_of make (words_of values.now) }
{
    mouse_button_bit(first_word(values)?.0)
}

#[tactic(auto, unfolding(crate::specs::ScriptRows::mouse_of))]
fn mouse_of(values: &[u8]) -> Option<Input>
    ensures input { result ≡ mouse_of (words_of values.now) }
    ensures limits { (version : Version) → IfSome result (λ input. IsEvent version (Device input)) }
{
    let (x, y) = two_words(values)?;
    match (pixel_of(x), pixel_of(y)) {
        (Some(x), Some(y)) => Some(Input::Mouse(x, y)),
        _ => None,
    }
}

#[tactic(auto, unfolding(crate::specs::ScriptRows::scroll_of))]
fn scroll_of(values: &[u8]) -> Option<Input>
    ensures input { result ≡ scroll_of (words_of values.now) }
    ensures limits { (version : Version) → IfSome result (λ input. IsEvent version (Device input)) }
{
    let (x, y) = two_words(values)?;
    match (turn_of(x), turn_of(y)) {
        (Some(x), Some(y)) => Some(Input::Scroll(x, y)),
        _ => None,
    }
}

// The texts of a line, if each of its words is one.
fn texts_of_values(alloc: Global, values: &[u8]) -> Result<Option<Vec<Bytes>>, AllocError>
    ensures texts { IfOk result (λ texts. texts_if texts ≡ texts_of_values (words_of values.now)) }
    ensures limits { IfOk result (λ texts. IfSome texts (λ each. AreTexts (length values.now) (bytes_in each.items))) }
{
    let mut texts = Vec::new(alloc);
    let mut left = values;
    while let Some((word, more)) = first_word(left) {
        match text_of_values(alloc, word)? {
            Some(text) => texts.push(text)?,
            None => return Ok(None),
        }
        left = more;
    }
    Ok(Some(texts))
}
