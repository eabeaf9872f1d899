//! The pass over the words of a source, one step at a time.

ghost use Rattle.std.specs.Prelude.{◌≡◌, ◌+◌, ◌-◌, ◌<◌, [], ◌∷◌, length, is_some, true, None, slice_get};
ghost use Rattle.uxn_limits.specs.declared.limits.TheConstants.{MACRO_DEPTH, VISIT_LIMIT};
ghost use Rattle.tal_macros.specs.Expansion.{Visited, visit_kinds};
ghost use Rattle.tal_macros.specs.Bodies.{body_words};
ghost use Rattle.tal_macros.specs.Passing.{TurnGives};

use crate::body::{Body, Macros, body_named};
use crate::head::define;
use arrayvec::ArrayVec;
use indexmap::IndexMap;
use std::alloc::Global;
use tal_words::{AsmStop, Expanded, Fault, FaultKind, Span, Word, begins};
use uxn_limits::limits::{MACRO_DEPTH, VISIT_LIMIT};

/// What a step of the pass came to.
pub enum Turn {
    /// No word is given yet: a head was read or a use was opened, or the words behind one go on.
    Passed,
    /// This word was visited, which is no use.
    Word(Expanded),
    /// No word is left.
    End,
}

/// How far the pass has come. Nothing is done in it before it is known to have no fault, so a pass that
/// is refused stays as it is.
#[derive(Drop)]
pub struct Pass {
    /// The macros so far.
    macros: Macros,
    /// The index of the next word of the source.
    at: usize,
    /// The words that are visited now: those of the innermost use, or a word outside heads by itself.
    body: Body,
    /// What is left behind each open use, the outermost first.
    outer: ArrayVec<Body, MACRO_DEPTH>,
    /// The word of the source that is visited.
    origin: Word,
    /// How many words were visited.
    pub count: u32,
}

impl Pass {
    /// The pass before the first word.
    pub fn new(alloc: Global) -> Pass
        ensures macros { result.macros.entries ≡ [] }
        ensures place { result.at ≡ 0 }
        ensures body { result.body ≡ record { from = 0; to = 0 } }
        ensures outer { result.outer.items ≡ [] }
        ensures count { result.count ≡ 0 }
    {
        Pass {
            macros: IndexMap::new(alloc),
            at: 0,
            body: Body::default(),
            outer: ArrayVec::new(),
            origin: Word {
                span: Span { start: 0, end: 0 },
                line: 1,
                column: 1,
            },
            count: 0,
        }
    }

    /// Goes one step on.
    pub fn turn(&mut self, alloc: Global, source: &[u8], words: &[Word]) -> Result<Turn, AsmStop>
        ensures { TurnGives source.now words.now self.old self.new result }
    {
        if let Some(word) = self.body.first(words) {
            return self.visit(source, words, word);
        }
        match self.outer.pop() {
            Some(body) => {
                self.body = body;
                Ok(Turn::Passed)
            }
            None => self.source_word(alloc, source, words),
        }
    }

    /// Visits the first word of the body.
    fn visit(&mut self, source: &[u8], words: &[Word], word: Word) -> Result<Turn, AsmStop>
        requires first { body_words words.now self.old.body
            ≡ word ∷ body_words words.now (record { from = self.old.body.from + 1; to = self.old.body.to }) }
        requires within { self.old.body.from < length words.now }
        ensures { TurnGives source.now words.now self.old self.new result }
    {
        let used = body_named(&self.macros, word.span.text(source));
        if let Some(kind) = self.visit_fault(used) {
            return Err(AsmStop::Refused(Fault::new(&self.origin, kind)));
        }
        self.count += 1;
        self.body.from += 1;
        match used {
            Some(body) => {
                self.outer.push(self.body);
                self.body = body;
                Ok(Turn::Passed)
            }
            None => Ok(Turn::Word(Expanded {
                text: word.span,
                origin: self.origin,
            })),
        }
    }

    /// What is wrong with a word of the body that names this body.
    fn visit_fault(&self, used: Option<Body>) -> Option<FaultKind>
        ensures kind { (word : Visited) → word.is_use ≡ is_some used → word.room ≡ MACRO_DEPTH - length self.now.outer.items
            → result ≡ slice_get (visit_kinds self.now.count word) 0 }
        ensures room { result ≡ None → is_some used ≡ true → length self.now.outer.items < MACRO_DEPTH }
        ensures few { result ≡ None → self.now.count < VISIT_LIMIT }
    {
        if used.is_some() && self.outer.is_full() {
            Some(FaultKind::MacroDeep)
        } else if self.count >= VISIT_LIMIT {
            Some(FaultKind::ManyWords)
        } else {
            None
        }
    }

    /// Takes the next word of the source, or the head that begins with it.
    fn source_word(&mut self, alloc: Global, source: &[u8], words: &[Word]) -> Result<Turn, AsmStop>
        requires body { body_words words.now self.old.body ≡ [] }
        requires outer { self.old.outer.items ≡ [] }
        ensures { TurnGives source.now words.now self.old self.new result }
    {
        if self.at >= words.len() {
            return Ok(Turn::End);
        }
        let word = words[self.at];
        if begins(word.span.text(source), b'%') {
            let body = define(alloc, source, words, self.at, &mut self.macros)?;
            self.at = body.to + 1;
        } else {
            self.origin = word;
            self.body = Body {
                from: self.at,
                to: self.at + 1,
            };
            self.at += 1;
        }
        Ok(Turn::Passed)
    }
}
