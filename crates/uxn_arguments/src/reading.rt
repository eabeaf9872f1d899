//! What a line of words gives over a table.
ghost use Rattle.std.specs.Prelude.{◌≡◌, IfOk, option_map, is_some, map, string_bytes};
ghost use Rattle.uxn_arguments.specs.Choices.{operand, values_over};
ghost use Rattle.uxn_arguments.specs.Parsing.{found_value, table_choices};

use super::choice::{Choice, parser};
use super::legal::are_legal;
use clap::ArgMatches;
use clap::error::ErrorKind;
use clap::parser::ValueSource;
use std::alloc::{AllocError, Global};

/// What a line gives: its operand, and its options by their names.
#[derive(Drop)]
pub(crate) struct Found<'a> {
    matches: ArgMatches<'a>,
}

impl<'a> Found<'a> {
    /// The operand, which every line that was read has.
    pub(crate) fn operand(&self) -> Option<&'a str>
        ensures { option_map (λ text. text.now) result ≡ found_value self.now operand }
    {
        self.value("")
    }

    /// The value that the words give an option, or `true` of a switch; nothing where they do not name
    /// it.
    pub(crate) fn value(&self, name: &str) -> Option<&'a str>
        ensures { option_map (λ text. text.now) result ≡ found_value self.now name.now }
    {
        match self.matches.value_source(name) {
            Some(ValueSource::CommandLine) => self.matches.get_str(name),
            Some(ValueSource::DefaultValue) | None => None,
        }
    }

    /// Whether the words name an option or a switch.
    pub(crate) fn has(&self, name: &str) -> bool
        ensures { result ≡ is_some (found_value self.now name.now) }
    {
        self.value(name).is_some()
    }
}

/// What a line of words gives over a table, where it is legal: each word is the operand, an option of
/// the table or its value, nothing is given twice, and nothing that is needed is missing. Errors with
/// running out of memory.
pub(crate) fn read<'a>(
    alloc: Global,
    table: &[Choice],
    words: &'a [String],
) -> Result<Option<Found<'a>>, AllocError>
    ensures { IfOk result (λ read. option_map found_value read ≡ values_over (table_choices table.now) (map string_bytes words.now)) }
{
    if !are_legal(words) {
        return Ok(None);
    }
    match parser(alloc, table)?.try_get_matches_from(words) {
        Ok(matches) => Ok(Some(Found { matches })),
        Err(error) => match error.kind() {
            ErrorKind::OutOfMemory => Err(AllocError),
            _ => Ok(None),
        },
    }
}
