//! The lines of a text in memory, of a reader that gives it piece by piece, and of either where it fails.

use crate::{Ending, InputStream, LineStop, MemSource, Source, next_line};
use std::alloc::{AllocError, Global};
use std::io::{self, ErrorKind, Read};

/// A reader that gives at most two bytes at once, and fails at a call, where one is named.
#[derive(Drop)]
struct Pieces {
    text: &'static [u8],
    calls: u64,
    fails: Option<u64>,
}

impl Read for Pieces {
    fn read(&mut self, buf: &mut [u8]) -> io::Result<usize> {
        let call = self.calls;
        self.calls = self.calls.saturating_add(1);
        if self.fails == Some(call) {
            return Err(io::Error::from(ErrorKind::BrokenPipe));
        }
        let count = self.text.len().min(buf.len()).min(2);
        let (piece, rest) = self.text.split_at(count);
        buf[..count].copy_from_slice(piece);
        self.text = rest;
        Ok(count)
    }
}

/// What a call of `next_line` answers.
#[derive(Clone, Copy)]
enum Answer {
    /// This line, and a newline after it.
    Line(&'static [u8]),
    /// This line, which is the last.
    Last(&'static [u8]),
    /// The source failed.
    Fails,
    /// The line is too long.
    Long,
}

/// A text, and what the calls of `next_line` answer for lines of at most three bytes.
struct Row {
    text: &'static [u8],
    answers: &'static [Answer],
}

const ROWS: &[Row] = &[
    Row {
        text: b"",
        answers: &[Answer::Last(b""), Answer::Last(b"")],
    },
    Row {
        text: b"ab\n\ncde\n",
        answers: &[
            Answer::Line(b"ab"),
            Answer::Line(b""),
            Answer::Line(b"cde"),
            Answer::Last(b""),
        ],
    },
    Row {
        text: b"a\nbcd",
        answers: &[Answer::Line(b"a"), Answer::Last(b"bcd")],
    },
    Row {
        text: b"abcd\ne",
        answers: &[Answer::Long, Answer::Line(b""), Answer::Last(b"e")],
    },
];

/// Whether an answer is the one that is expected.
fn is_answer(answer: Result<Ending, LineStop>, line: &[u8], expected: Answer) -> bool {
    match (answer, expected) {
        (Ok(Ending::Newline), Answer::Line(text)) => line == text,
        (Ok(Ending::End), Answer::Last(text)) => line == text,
        (Err(LineStop::Failed), Answer::Fails) => true,
        (Err(LineStop::Long), Answer::Long) => true,
        _ => false,
    }
}

/// Whether the lines of a source are these.
fn answers<S: Source>(alloc: Global, source: &mut S, expected: &[Answer]) -> bool {
    let mut line = Vec::new(alloc);
    let mut same = true;
    for answer in expected {
        let taken = next_line(source, &mut line, 3);
        same = same && is_answer(taken, &line, *answer);
    }
    same
}

/// A source of a text that is read piece by piece.
fn in_pieces(
    alloc: Global,
    text: &'static [u8],
    fails: Option<u64>,
) -> Result<InputStream<Pieces>, AllocError> {
    let reader = Pieces {
        text,
        calls: 0,
        fails,
    };
    InputStream::new(alloc, reader)
}

#[test]
fn lines_end_at_newlines_and_at_the_end(rt: HostRuntime) -> Result<(), AllocError> {
    for row in ROWS {
        let text = row.text;
        let mut memory = MemSource::new(text, None);
        assert!(rt;
            answers(rt.alloc(), &mut memory, row.answers),
            "in memory: {text:?}"
        );
        let mut reader = in_pieces(rt.alloc(), text, None)?;
        assert!(rt;
            answers(rt.alloc(), &mut reader, row.answers),
            "in pieces: {text:?}"
        );
    }
    Ok(())
}

#[test]
fn a_fault_is_answered_once_and_loses_no_byte_after_it(rt: HostRuntime) -> Result<(), AllocError> {
    let expected = [Answer::Line(b"a"), Answer::Fails, Answer::Last(b"bc")];
    let mut memory = MemSource::new(b"a\nbc", Some(2));
    assert!(rt; answers(rt.alloc(), &mut memory, &expected));
    let mut reader = in_pieces(rt.alloc(), b"a\nbc", Some(1))?;
    assert!(rt; answers(rt.alloc(), &mut reader, &expected));
    Ok(())
}
