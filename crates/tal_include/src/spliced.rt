//! A source whose includes are replaced by the words of their files.

ghost use Rattle.std.specs.Prelude.{◌≡◌, ◌==◌, IsOk, OnOk, Bool};
ghost use Rattle.std.specs.List.{find};
ghost use Rattle.std.specs.Option.{option_copied};
ghost use Rattle.tal_include.specs.Flat.{empty_flat, flat_with_word, flat_with_path, path_of_file, origin_at};

use crate::faults::Origin;
use std::alloc::{AllocError, Global};
use std::marker::Model;
use tal_words::Word;
use uxn_io_traits::Path;

/// A word of the flat text: the offset of its first byte there, its file by its number in the order of
/// reading, where the main source has 0, and its line and column in that file.
#[derive(Clone, Copy)]
pub(crate) struct Place {
    pub(crate) at: usize,
    pub(crate) file: usize,
    pub(crate) line: u32,
    pub(crate) column: u32,
}

/// The flat text of a source: its words, with those of its files in place of the words that include them,
/// each with a newline behind it.
#[derive(Drop)]
pub struct Spliced {
    main: Path,
    includes: bool,
    text: Vec<u8>,
    places: Vec<Place>,
    paths: Vec<Path>,
}

impl Model for Spliced {
    ghost use Rattle.tal_include.specs.Flat.{Flat};

    ghost Value = { Flat };

    ghost view = { λ s. record {
      main = s.main;
      includes = s.includes;
      text = s.text.items;
      places = s.places.items;
      paths = s.paths.items;
    } };
}

impl Spliced {
    /// Nothing so far, of a main source with or without includes.
    pub(crate) fn new(alloc: Global, main: &Path, includes: bool) -> Spliced
        ensures { result ≡ empty_flat main.now includes }
    {
        Spliced {
            main: *main,
            includes,
            text: Vec::new(alloc),
            places: Vec::new(alloc),
            paths: Vec::new(alloc),
        }
    }

    /// The flat text: each spliced word, and a newline behind it.
    pub fn text(&self) -> &[u8]
        ensures { result.now ≡ self.now.text }
    {
        self.text.as_slice()
    }

    /// The files that were read beside the main source, in the order of reading.
    pub fn paths(&self) -> &[Path]
        ensures { result.now ≡ self.now.paths }
    {
        self.paths.as_slice()
    }

    /// The flat text and the files that were read, which are given up.
    pub fn into_parts(self) -> (Vec<u8>, Vec<Path>)
        ensures text { result.0.items ≡ self.text }
        ensures paths { result.1.items ≡ self.paths }
    {
        (self.text, self.paths)
    }

    /// Where the word stands that begins at an offset of the flat text. None exactly where no spliced word
    /// begins there.
    pub fn origin(&self, at: u32) -> Option<Origin>
        ensures { result ≡ origin_at self.now at }
    {
        match place_at(&self.places, at as usize) {
            Some(place) => Some(Origin {
                path: self.path_of_file(place.file),
                line: place.line,
                column: place.column,
            }),
            None => None,
        }
    }

    /// The path of the file with a number.
    fn path_of_file(&self, file: usize) -> Path
        ensures { result ≡ path_of_file self.now.main self.now.paths file }
    {
        if file == 0 {
            return self.main;
        }
        match self.paths.get(file - 1) {
            Some(path) => *path,
            None => self.main,
        }
    }

    /// The path of the main source.
    pub(crate) fn main(&self) -> &Path
        ensures { result.now ≡ self.now.main }
    {
        &self.main
    }

    /// Whether the main source has an include word.
    pub(crate) fn includes(&self) -> bool
        ensures { result ≡ self.now.includes }
    {
        self.includes
    }

    /// Adds a word of the file with a number, and a newline.
    pub(crate) fn add_word(
        &mut self,
        file: usize,
        word: &Word,
        text: &[u8],
    ) -> Result<(), AllocError>
        ensures { OnOk result (self.new ≡ flat_with_word file word.now text.now self.old) }
    {
        self.places.push(Place {
            at: self.text.len(),
            file,
            line: word.line,
            column: word.column,
        })?;
        self.text.extend_from_slice(text)?;
        self.text.extend_from_slice(b"\n")
    }

    /// Adds a file that was read.
    pub(crate) fn add_path(&mut self, path: &Path) -> Result<(), AllocError>
        ensures { OnOk result (self.new ≡ flat_with_path path.now self.old) }
    {
        self.paths.push(*path).map_err(AllocError::from)
    }
}

/// The word that begins at an offset.
fn place_at(places: &[Place], at: usize) -> Option<&Place>
    ensures { option_copied result ≡ find (λ place. place.at == at) places.now }
{
    places.iter().find(|place| place.at == at)
}
