//! Why an action of a file device stopped.
use std::alloc::AllocError;
use uxn_io_traits::{Failed, NamesStop};

/// Why an action stopped.
#[derive(Clone, Copy)]
pub enum FileStop {
    /// The tree failed.
    TreeFault,
    /// Running out of memory for a folder's listing.
    NoMemory,
}

impl From<Failed> for FileStop {
    ghost use Rattle.std.specs.Prelude.{◌≡◌};
    ghost use Rattle.file_ports.specs.declared.stop.FileStop.TheVariants as stops;

    ghost from_gives = { λ _ stop. stop ≡ stops.TreeFault };

    fn from(_fault: Failed) -> FileStop {
        FileStop::TreeFault
    }
}

impl From<AllocError> for FileStop {
    ghost use Rattle.std.specs.Prelude.{◌≡◌};
    ghost use Rattle.file_ports.specs.declared.stop.FileStop.TheVariants as stops;

    ghost from_gives = { λ _ stop. stop ≡ stops.NoMemory };

    fn from(_want: AllocError) -> FileStop {
        FileStop::NoMemory
    }
}
