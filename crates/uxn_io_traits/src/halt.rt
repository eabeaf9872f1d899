//! Why a call ends before its work is done.

use super::{Failed, ReadStop};
use std::alloc::{AllocError, AllocFailed};

/// Why a call ended before its work was done.
#[derive(Drop)]
pub enum Halt<R> {
    /// It is refused.
    Refused(R),
    /// The tree failed.
    TreeFault,
    /// Memory ran out.
    NoMemory,
}

impl<R: Drop> From<AllocError> for Halt<R> {
    ghost use Rattle.std.specs.Prelude.{◌≡◌};
    ghost use Rattle.uxn_io_traits.specs.declared.halt.Halt.TheVariants as halts;

    ghost from_gives = { λ _ halt. halt ≡ halts.NoMemory };

    fn from(_error: AllocError) -> Halt<R> {
        Halt::NoMemory
    }
}

impl<T: Drop, R: Drop> From<AllocFailed<T>> for Halt<R> {
    ghost use Rattle.std.specs.Prelude.{◌≡◌};
    ghost use Rattle.uxn_io_traits.specs.declared.halt.Halt.TheVariants as halts;

    ghost from_gives = { λ _ halt. halt ≡ halts.NoMemory };

    fn from(_error: AllocFailed<T>) -> Halt<R> {
        Halt::NoMemory
    }
}

impl<R: Drop> From<Failed> for Halt<R> {
    ghost use Rattle.std.specs.Prelude.{◌≡◌};
    ghost use Rattle.uxn_io_traits.specs.declared.halt.Halt.TheVariants as halts;

    ghost from_gives = { λ _ halt. halt ≡ halts.TreeFault };

    fn from(_fault: Failed) -> Halt<R> {
        Halt::TreeFault
    }
}

impl<R: Drop> From<ReadStop> for Halt<R> {
    ghost use Rattle.std.specs.Prelude.{◌≡◌};
    ghost use Rattle.uxn_io_traits.specs.Inquires.{halt_of_read};

    ghost from_gives = { λ stop halt. halt ≡ halt_of_read stop };

    fn from(stop: ReadStop) -> Halt<R> {
        match stop {
            ReadStop::Failed => Halt::TreeFault,
            ReadStop::NoMemory => Halt::NoMemory,
        }
    }
}
