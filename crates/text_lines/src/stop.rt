//! Why a text of lines is not read.

ghost use Rattle.std.specs.Prelude.{◌≡◌};

use std::alloc::{AllocError, AllocFailed};
use std::fmt::Debug;
use thiserror::Error;

/// Why a text of lines is not read.
#[derive(Debug, Drop, Error)]
#[error_bound(K: Debug)]
pub enum TextStop<K> {
    /// The first faulty line, counted from 1, has this fault.
    #[error("refused at line {line}")]
    Refused { line: u32, kind: K },
    /// Memory ran out.
    #[error("out of memory")]
    NoMemory,
}

impl<K> From<AllocError> for TextStop<K> {
    ghost use Rattle.text_lines.specs.declared.stop.TextStop.TheVariants.{NoMemory};

    ghost from_gives = { λ _ stop. stop ≡ NoMemory };

    fn from(_error: AllocError) -> TextStop<K> {
        TextStop::NoMemory
    }
}

impl<K, T: Drop> From<AllocFailed<T>> for TextStop<K> {
    ghost use Rattle.text_lines.specs.declared.stop.TextStop.TheVariants.{NoMemory};

    ghost from_gives = { λ _ stop. stop ≡ NoMemory };

    fn from(_error: AllocFailed<T>) -> TextStop<K> {
        TextStop::NoMemory
    }
}
