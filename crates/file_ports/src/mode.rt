//! What a file device is doing.
ghost use Rattle.std.specs.Prelude.{◌≡◌};
ghost use Rattle.file_ports.specs.Device.{is_writing};

use crate::listing::Listing;

/// What a device is doing.
#[derive(Drop)]
pub(crate) enum Mode {
    /// Nothing.
    Idle,
    /// It reads the file at its path, and is at this place.
    ReadingFile(u64),
    /// It reads the listing of a folder, and is at this place.
    ReadingListing(u64, Listing),
    /// It writes the file at its path.
    Writing,
}

impl Mode {
    /// Whether it writes.
    pub(crate) fn is_writing(&self) -> bool
        ensures { result ≡ is_writing self.now }
    {
        match self {
            Mode::Writing => true,
            Mode::Idle | Mode::ReadingFile(_) | Mode::ReadingListing(..) => false,
        }
    }
}
