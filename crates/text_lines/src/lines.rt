//! The lines of a text, one after the other.

ghost use Rattle.std.specs.Prelude.{◌≡◌, ◌+◌, ◌-◌, ◌<◌, ◌≤◌, ◌^◌, ◌∷◌, [], length, IfSome, MatchOption};
ghost use Rattle.text_lines.specs.Lines.{lines_of};

use crate::words::line_at;
use std::marker::Model;

/// The lines of a text that are left, and the number of the last one that was taken.
#[derive(Drop)]
pub struct Lines<'a> {
    text: &'a [u8],
    start: usize,
    number: u32,
}

impl<'a> Model for Lines<'a> {
    ghost use Rattle.std.specs.Prelude.{◌+◌, ◌-◌, ◌<◌, ◌≤◌, ◌^◌, length};
    ghost use Rattle.text_lines.specs.Lines.{LinesView, lines_from};

    ghost Value = { LinesView };

    ghost view = { λ l. record { left = lines_from l.text.now l.start; number = l.number; size = length l.text.now } };

    ghost invariant = { λ l. (length l.text.now < 2 ^ 32 - 1) × (l.number ≤ l.start) × (l.start ≤ length l.text.now + 1) };
}

impl<'a> Lines<'a> {
    /// The lines of a text of fewer than 4,294,967,295 bytes, numbered from 1.
    pub fn new(text: &'a [u8]) -> Lines<'a>
        requires { length text.now < 2 ^ 32 - 1 }
        ensures left { result.left ≡ lines_of text.now }
        ensures number { result.number ≡ 0 }
        ensures size { result.size ≡ length text.now }
    {
        Lines {
            text,
            start: 0,
            number: 0,
        }
    }

    /// The number of the line that was taken last, from 1; 0 before the first.
    pub fn number(&self) -> u32
        ensures { result ≡ self.now.number }
    {
        self.number
    }

    /// The next line, without the newline behind it.
    pub fn next_line(&mut self) -> Option<&'a [u8]>
        ensures left { MatchOption result (self.old.left ≡ []) (λ line. self.old.left ≡ line.now ∷ self.new.left) }
        ensures number { MatchOption result (self.new ≡ self.old) (λ line. self.new.number ≡ self.old.number + 1) }
        ensures size { self.new.size ≡ self.old.size }
        ensures within { IfSome result (λ line. length line.now ≤ self.old.size) }
    {
        if self.start > self.text.len() {
            return None;
        }
        let line = line_at(self.text, self.start);
        self.start += line.len() + 1;
        self.number += 1;
        Some(line)
    }
}
