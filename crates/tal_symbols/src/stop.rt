//! What can be wrong with a symbol file.

ghost use Rattle.std.specs.Prelude.{◌≡◌};
ghost use Rattle.tal_symbols.specs.Answers.{symbol_kind_name};
ghost use Rattle.tal_symbols.specs.declared.stop.SymbolStop.TheVariants.{NoMemory};

use std::alloc::{AllocError, AllocFailed};
use thiserror::Error;

/// What is wrong with an entry of a symbol file, or with the file as a whole, numbered from 1 in this
/// order.
#[derive(Clone, Copy, Debug)]
pub enum SymbolKind {
    /// The entry has fewer than two address bytes, or no zero byte behind them.
    Torn,
    /// Its name is empty.
    NoName,
    /// Its name has a byte up to a space.
    BadByte,
    /// The file has more than 16,777,216 bytes.
    Long,
}

impl SymbolKind {
    /// The name of the kind, as it is printed.
    pub fn name(self) -> &'static str
        ensures { result.now ≡ symbol_kind_name self }
    {
        match self {
            SymbolKind::Torn => "Torn",
            SymbolKind::NoName => "NoName",
            SymbolKind::BadByte => "BadByte",
            SymbolKind::Long => "Long",
        }
    }
}

/// Why a symbol file is not read.
#[derive(Debug, Drop, Error)]
pub enum SymbolStop {
    /// The first faulty entry, counted from 0, and what is wrong with it. A file that is too long is
    /// refused at entry 0.
    #[error("entry {entry} of the symbol file is refused")]
    Refused { entry: u32, kind: SymbolKind },
    /// Memory ran out.
    #[error("out of memory")]
    NoMemory,
}

impl From<AllocError> for SymbolStop {
    ghost from_gives = { λ _ stop. stop ≡ NoMemory };

    fn from(_error: AllocError) -> SymbolStop {
        SymbolStop::NoMemory
    }
}

impl<T: Drop> From<AllocFailed<T>> for SymbolStop {
    ghost from_gives = { λ _ stop. stop ≡ NoMemory };

    fn from(_error: AllocFailed<T>) -> SymbolStop {
        SymbolStop::NoMemory
    }
}
