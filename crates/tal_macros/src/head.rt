//! Heads of macros.

ghost use Rattle.std.specs.Prelude.{◌≡◌, ◌<◌, ◌≤◌, ◌+◌, ◌&&◌, ◌==◌, drop, length, true, None, Some, slice_get};
ghost use Rattle.std.specs.Prelude.{if◌then◌else◌, MatchOption, MatchResult};
ghost use Rattle.std.specs.Option.{option_or};
ghost use Rattle.tal_words.specs.Braces.{closes, one_if};
ghost use Rattle.tal_words.specs.Source.{begins, is_only, word_text};
ghost use Rattle.tal_macros.specs.Expansion.{body_after, head_faults};
ghost use Rattle.tal_macros.specs.Bodies.{known_macros, word_at};
ghost use Rattle.tal_macros.specs.Heads.{is_head, IsBody, IsClosedHead, HeadGives};

use crate::body::{Body, Macros, body_named};
use std::alloc::Global;
use tal_words::{AsmStop, Fault, FaultKind, Word, begins, closes, is_only, name_fault, opens};

/// The body of a head, and the first word in it that begins a head.
#[derive(Clone, Copy)]
struct Closed {
    body: Body,
    nested: Option<Word>,
}

/// Reads the head whose first word has this index, and adds its macro. Gives the body, or the first of the
/// faults of the head and its body.
pub fn define(
    alloc: Global,
    source: &[u8],
    words: &[Word],
    at: usize,
    macros: &mut Macros,
) -> Result<Body, AsmStop>
    requires within { at < length words.now }
    requires head { is_head source.now (word_at words.now at) ≡ true }
    ensures { HeadGives source.now words.now at
        (known_macros words.now macros.old.entries) (known_macros words.now macros.new.entries) result }
{
    let word = &words[at];
    let name = name_of(word.span.text(source));
    let closed = match closed_head(source, words, at, name, macros) {
        Ok(closed) => closed,
        Err(kind) => return Err(AsmStop::Refused(Fault::new(word, kind))),
    };
    if let Some(nested) = closed.nested {
        return Err(AsmStop::Refused(Fault::new(&nested, FaultKind::MacroBody)));
    }
    let key = Vec::from_slice(alloc, name)?;
    macros.insert(key, closed.body)?;
    Ok(closed.body)
}

/// The body of the head whose first word has this index and whose macro has this name, or what is wrong with the head.
fn closed_head(
    source: &[u8],
    words: &[Word],
    at: usize,
    name: &[u8],
    macros: &Macros,
) -> Result<Closed, FaultKind>
    requires within { at < length words.now }
    requires name { name.now ≡ drop 1 (word_text source.now (word_at words.now at)) }
    ensures { MatchResult result
        (λ closed. IsClosedHead source.now words.now at (known_macros words.now macros.now.entries) closed.body closed.nested)
        (λ kind. slice_get (head_faults source.now (word_at words.now at) (known_macros words.now macros.now.entries)
        (body_after source.now (drop (at + 1) words.now))) 0 ≡ Some kind) }
{
    if let Some(kind) = name_fault(name) {
        return Err(kind);
    }
    if body_named(macros, name).is_some() {
        return Err(FaultKind::MacroTwice);
    }
    match body_after(source, words, at + 1) {
        Some(closed) => Ok(closed),
        None => Err(FaultKind::MacroBody),
    }
}

/// What follows the first byte of a word.
fn name_of(text: &[u8]) -> &[u8]
    ensures { result.now ≡ drop 1 text.now }
{
    match text {
        [_, name @ ..] => name,
        [] => text,
    }
}

/// The body whose `{` has this index, if there is one that is closed.
fn body_after(source: &[u8], words: &[Word], brace: usize) -> Option<Closed>
    requires { brace ≤ length words.now }
    ensures { MatchOption result (body_after source.now (drop brace words.now) ≡ None)
        (λ closed. IsBody source.now words.now brace closed.body closed.nested) }
{
    if brace == words.len() || !is_only(words[brace].span.text(source), b'{') {
        return None;
    }
    closing(source, words, brace)
}

/// The body behind the `{` of an index, up to the `}` that closes it.
fn closing(source: &[u8], words: &[Word], brace: usize) -> Option<Closed>
    requires within { brace < length words.now }
    requires opens { is_only 123 (word_text source.now (word_at words.now brace)) ≡ true }
    ensures { MatchOption result (body_after source.now (drop brace words.now) ≡ None)
        (λ closed. IsBody source.now words.now brace closed.body closed.nested) }
{
    let from = brace + 1;
    let mut opened = 0usize;
    let mut closed = 0usize;
    let mut nested = None;
    for index in from..words.len() {
        let word = words[index];
        let text = word.span.text(source);
        if ends_body(text, opened, closed) {
            let body = Body { from, to: index };
            return Some(Closed { body, nested });
        }
        opened += one_if(opens(text));
        closed += one_if(closes(text));
        nested = first_head(nested, word, text);
    }
    None
}

/// A word closes the body, behind so many words that open a brace and so many that close one.
fn ends_body(text: &[u8], opened: usize, closed: usize) -> bool
    ensures { result ≡ (closes text.now && opened == closed) }
{
    closes(text) && opened == closed
}

/// The first word that begins a head, where the words so far have this one and the next has this text.
fn first_head(found: Option<Word>, word: Word, text: &[u8]) -> Option<Word>
    ensures { result ≡ option_or found (if begins 37 text.now then Some word else None) }
{
    if found.is_some() {
        found
    } else if begins(text, b'%') {
        Some(word)
    } else {
        None
    }
}

/// One where the test holds, and else none.
fn one_if(test: bool) -> usize
    ensures { result ≡ one_if test }
{
    usize::from(test)
}
