//! The words after the program's name, and what is said where they cannot be had.
ghost use Rattle.uxn_program.specs.Refusal.{MainRefuses};

use std::alloc::AllocFailed;
use std::io::ErrorKind;
use std::rt::Env;
use std::{env, io};
use uxn_io_traits::{Failed, Sink, put_all};

/// Why the words cannot be had.
#[derive(Clone, Copy)]
pub enum WordsStop {
    /// A word is not UTF-8.
    NotText,
    /// Running out of memory.
    NoMemory,
}

impl From<io::Error> for WordsStop {
    ghost use Rattle.uxn_program.specs.Words.{IsStopFor};

    ghost from_gives = { IsStopFor };

    fn from(error: io::Error) -> WordsStop {
        match error.kind() {
            ErrorKind::OutOfMemory => WordsStop::NoMemory,
            _ => WordsStop::NotText,
        }
    }
}

impl<T: Drop> From<AllocFailed<T>> for WordsStop {
    ghost use Rattle.std.specs.Prelude.{◌≡◌};
    ghost use Rattle.uxn_program.specs.declared.words.WordsStop.TheVariants as stops;

    ghost from_gives = { λ _ stop. stop ≡ stops.NoMemory };

    fn from(_: AllocFailed<T>) -> WordsStop {
        WordsStop::NoMemory
    }
}

/// The words after the program's name.
pub fn words_of<R: Env + AllocGlobal>(rt: &R) -> Result<Vec<String>, WordsStop> {
    let mut words = Vec::new(rt.alloc());
    for word in env::args(rt)?.skip(1) {
        words.push(word)?;
    }
    Ok(words)
}

/// The status where the words cannot be had: 138 when out of memory, 128 and its line where a word is
/// not UTF-8, and 137 where that line cannot be put.
pub fn refuse_words<E: Sink>(err: &mut E, stop: WordsStop) -> u8
    ensures { MainRefuses stop (E.state err.old) (E.state err.new) result }
{
    match stop {
        WordsStop::NoMemory => 138,
        WordsStop::NotText => match put_all(err, b"words: not understood\n") {
            Ok(()) => 128,
            Err(Failed) => 137,
        },
    }
}
