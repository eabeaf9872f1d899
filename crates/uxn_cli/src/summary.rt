//! The summary of a workload.
ghost use Rattle.std.specs.Prelude.{◌≡◌, ◌++◌, IfOk, OnOk, codes, decimal};
ghost use Rattle.std.specs.List.{flat_map};
ghost use Rattle.uxn_cli.specs.Summary.{line, digits, summary_of, summary_text};

use std::alloc::{AllocError, Global};
use uxn_io_traits::{append_pieces, decimal, hex_byte};

/// A workload that ran.
#[derive(Clone, Copy)]
pub struct Ran<'a> {
    /// How many bytes the source has.
    pub source: u64,
    /// How many bytes the ROM has.
    pub rom: u64,
    /// How many instructions ran.
    pub instructions: u64,
    /// How many vectors ran.
    pub vectors: u64,
    /// How many of them were cut at the budget.
    pub cuts: u64,
    /// How many frames were given.
    pub frames: u64,
    /// The bytes that were written to the standard output.
    pub console: &'a [u8],
    /// The exit code.
    pub exit: u8,
}

/// Puts a line with a number behind a text.
fn push_count(text: &mut Vec<u8>, name: &[u8], count: u64) -> Result<(), AllocError>
    ensures { OnOk result (text.new.items ≡ text.old.items ++ line name.now (decimal count)) }
{
    append_pieces(text, &[name, b" ", decimal(count).as_slice(), b"\n"])
}

/// Puts lines, each with a name and a number, behind a text.
fn push_counts(text: &mut Vec<u8>, counts: &[(&[u8], u64)]) -> Result<(), AllocError>
    ensures { OnOk result (text.new.items
        ≡ text.old.items ++ flat_map (λ count. line count.0.now (decimal count.1)) counts.now) }
{
    for (name, count) in counts {
        push_count(text, name, *count)?;
    }
    Ok(())
}

/// Puts the line of what was written to the standard output, as pairs of digits, behind a text.
fn push_console(text: &mut Vec<u8>, bytes: &[u8]) -> Result<(), AllocError>
    ensures { OnOk result (text.new.items ≡ text.old.items ++ line (codes "console") (digits bytes.now)) }
{
    text.extend_from_slice(b"console ")?;
    for byte in bytes {
        text.extend_from_slice(&hex_byte(*byte))?;
    }
    text.extend_from_slice(b"\n")
}

impl Ran<'_> {
    /// The summary: eight lines. Errors when out of memory.
    pub fn summary(&self, alloc: Global) -> Result<Vec<u8>, AllocError>
        ensures { IfOk result (λ text. text.items ≡ summary_text (summary_of self.now)) }
    {
        let mut text = Vec::new(alloc);
        push_counts(
            &mut text,
            &[
                (b"source", self.source),
                (b"rom", self.rom),
                (b"instructions", self.instructions),
                (b"vectors", self.vectors),
                (b"cuts", self.cuts),
                (b"frames", self.frames),
            ],
        )?;
        push_console(&mut text, self.console)?;
        push_count(&mut text, b"exit", u64::from(self.exit))?;
        Ok(text)
    }
}
