//! How a source is cut into words.

ghost use Rattle.std.specs.Prelude.{◌≡◌, ◌≤◌, ◌<◌, ◌+◌, ◌++◌, ◌∷◌, ◌^◌, true, length, if◌then◌else◌, IfOk, []};
ghost use Rattle.tal_words.specs.Source.{is_newline, line_at, column_at, is_between, begins_token, token_at, tokens_below, tokens_of};
ghost use Rattle.tal_words.specs.Faults.{Gives, phase_fault};
ghost use Rattle.tal_words.specs.Order.{each, collected};
ghost use Rattle.uxn_limits.specs.declared.limits.TheConstants.{TEXT_LIMIT};
ghost use Rattle.tal_words.specs.Comments.{validated_token, word_given, words_of, word_fault, depth_after};

use crate::fault::{AsmStop, Fault, FaultKind};
use crate::span::{Span, Word};
use crate::text::{begins, is_blank, is_only, run_end};
use std::alloc::Global;
use uxn_limits::limits;

/// The words of a source: its tokens outside comments. Refused with the first fault of a token or a
/// comment, or where the source has more than `TEXT_LIMIT` bytes.
#[tactic(auto, unfolding(crate::specs::Comments::word_fault, crate::specs::Comments::words_of))]
pub fn words(alloc: Global, source: &[u8]) -> Result<Vec<Word>, AsmStop>
    ensures value { Gives (λ v. v.items) result (word_fault source.now) (words_of source.now) }
    ensures short { IfOk result (λ _. length source.now ≤ TEXT_LIMIT) }
{
    if source.len() > limits::TEXT_LIMIT {
        return Err(AsmStop::Refused(Fault {
            at: 0,
            line: 1,
            column: 1,
            kind: FaultKind::LongSource,
        }));
    }
    outside_comments(alloc, source)
}

/// An offset of a source, with its line and its column.
#[derive(Clone, Copy)]
struct Place {
    at: usize,
    line: u32,
    column: u32,
}

impl Place {
    /// The place behind a byte that stands at this one.
    fn after(self, byte: u8) -> Place
        requires at { self.at < 2 ^ 31 }
        requires line { self.line < 2 ^ 31 }
        requires column { self.column < 2 ^ 31 }
        ensures at { result.at ≡ self.at + 1 }
        ensures line { result.line ≡ (if is_newline byte then self.line + 1 else self.line) }
        ensures column { result.column ≡ (if is_newline byte then 1 else self.column + 1) }
    {
        let at = self.at + 1;
        if byte == b'\n' {
            Place {
                at,
                line: self.line + 1,
                column: 1,
            }
        } else {
            Place {
                at,
                line: self.line,
                column: self.column + 1,
            }
        }
    }
}

/// The place of the next token from a place between tokens on, or that of the end.
fn past_blanks(source: &[u8], place: Place) -> Place
    requires short { length source.now ≤ TEXT_LIMIT }
    requires within { place.at ≤ length source.now }
    requires line { place.line ≡ line_at source.now place.at }
    requires column { place.column ≡ column_at source.now place.at }
    requires between { is_between source.now place.at ≡ true }
    ensures later { place.at ≤ result.at }
    ensures within { result.at ≤ length source.now }
    ensures line { result.line ≡ line_at source.now result.at }
    ensures column { result.column ≡ column_at source.now result.at }
    ensures tokens { tokens_below source.now result.at ≡ tokens_below source.now place.at }
    ensures token { result.at < length source.now → begins_token source.now result.at ≡ true }
{
    let mut here = place;
    for at in place.at..source.len() {
        if !is_blank(source[at]) {
            return here;
        }
        here = here.after(source[at]);
    }
    here
}

/// The token that begins at a place.
#[tactic(auto, unfolding(crate::specs::Source::token_at))]
fn token_at(source: &[u8], place: Place) -> Word
    requires within { place.at < length source.now }
    requires short { length source.now ≤ TEXT_LIMIT }
    requires line { place.line ≡ line_at source.now place.at }
    requires column { place.column ≡ column_at source.now place.at }
    ensures value { result ≡ token_at source.now place.at }
    ensures end { result.span.end ≤ length source.now }
    ensures later { place.at ≤ result.span.end }
{
    let end = run_end(source, place.at);
    Word {
        span: Span {
            start: place.at as u32,
            end: end as u32,
        },
        line: place.line,
        column: place.column,
    }
}

/// The place behind the token that begins at a place.
fn past_token(source: &[u8], place: Place, token: Word) -> Place
    requires within { place.at < length source.now }
    requires short { length source.now ≤ TEXT_LIMIT }
    requires line { place.line ≡ line_at source.now place.at }
    requires column { place.column ≡ column_at source.now place.at }
    requires begins { begins_token source.now place.at ≡ true }
    requires token { token ≡ token_at source.now place.at }
    requires end { token.span.end ≤ length source.now }
    ensures within { result.at ≤ length source.now }
    ensures line { result.line ≡ line_at source.now result.at }
    ensures column { result.column ≡ column_at source.now result.at }
    ensures between { is_between source.now result.at ≡ true }
    ensures tokens { tokens_below source.now result.at ≡ tokens_below source.now place.at ++ (token_at source.now place.at ∷ []) }
    ensures later { place.at < result.at }
{
    Place {
        at: token.span.end as usize,
        line: token.line,
        column: token.column + (token.span.end - token.span.start),
    }
}

/// The words of a source that is not too long: its tokens that are no comments, or the first fault of a token or a comment.
fn outside_comments(alloc: Global, source: &[u8]) -> Result<Vec<Word>, AsmStop>
    requires short { length source.now ≤ TEXT_LIMIT }
    ensures { Gives (λ v. v.items) result (phase_fault (each (validated_token source.now) [] (tokens_of source.now)))
        (collected (word_given source.now) [] (tokens_of source.now)) }
{
    let mut words = Vec::new(alloc);
    let mut depth = 0usize;
    let mut opener = Word {
        span: Span { start: 0, end: 0 },
        line: 1,
        column: 1,
    };
    let start = Place {
        at: 0,
        line: 1,
        column: 1,
    };
    let mut place = past_blanks(source, start);
    while place.at < source.len() {
        let token = token_at(source, place);
        let text = token.span.text(source);
        if depth > 0 {
            depth = depth_after(depth, text);
        } else if begins(text, b'(') {
            opener = token;
            depth = 1;
        } else {
            if text.len() > limits::WORD_LIMIT {
                return Err(AsmStop::Refused(Fault::new(&token, FaultKind::LongWord)));
            }
            if begins(text, b')') {
                return Err(AsmStop::Refused(Fault::new(&token, FaultKind::StrayParen)));
            }
            words.push(token)?;
        }
        place = past_blanks(source, past_token(source, place, token));
    }
    if depth > 0 {
        return Err(AsmStop::Refused(Fault::new(&opener, FaultKind::OpenComment)));
    }
    Ok(words)
}

/// How many comments are open after a token inside comments.
fn depth_after(depth: usize, text: &[u8]) -> usize
    requires above { 0 < depth }
    requires below { depth < 2 ^ 63 }
    ensures value { result ≡ depth_after depth text.now }
    ensures bound { result ≤ depth + 1 }
{
    if is_only(text, b'(') {
        depth + 1
    } else if is_only(text, b')') {
        depth - 1
    } else {
        depth
    }
}
