//! The text that is read of a folder.
ghost use Rattle.std.specs.Prelude.{◌≡◌, ◌++◌, IfOk};
ghost use Rattle.file_ports.specs.Listing.{listing_line, folder_listing};

use crate::signs::four_signs;
use std::alloc::{AllocError, Global};
use std::marker::Model;
use uxn_io_traits::{Entry, Kind, append_pieces};

/// A folder's listing.
#[derive(Drop)]
pub(crate) struct Listing {
    text: Vec<u8>,
}

impl Model for Listing {
    ghost use Rattle.std.specs.Prelude.{ℕ, List};

    ghost Value = { List ℕ };

    ghost view = { λ l. l.text.items };
}

impl Listing {
    /// The listing of these children. Errors when out of memory.
    pub(crate) fn of(alloc: Global, entries: &[Entry]) -> Result<Listing, AllocError>
        ensures { IfOk result (λ listing. listing ≡ folder_listing entries.now) }
    {
        let mut text = Vec::new(alloc);
        for entry in entries {
            put_line(&mut text, entry)?;
        }
        Ok(Listing { text })
    }

    /// Its bytes.
    pub(crate) fn as_slice(&self) -> &[u8]
        ensures { result.now ≡ self.now }
    {
        self.text.as_slice()
    }
}

/// Puts the line of a child: four signs, a space, its name, a slash where it is a folder, and a newline.
fn put_line(text: &mut Vec<u8>, entry: &Entry) -> Result<(), AllocError>
    ensures { IfOk result (λ _. text.new.items ≡ text.old.items ++ listing_line entry.now) }
{
    let mark: &[u8] = if matches!(entry.kind, Kind::Folder) {
        b"/"
    } else {
        b""
    };
    append_pieces(
        text,
        &[
            &four_signs(entry.kind),
            b" ",
            entry.name.bytes(),
            mark,
            b"\n",
        ],
    )
}
