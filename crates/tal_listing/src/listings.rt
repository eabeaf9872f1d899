//! The listing of an assembly.

ghost use Rattle.std.specs.Prelude.{◌≡◌, ◌≤◌, ◌<◌, ◌+◌, ◌++◌, ℕ, List, ◌∷◌, [], None, Ok, IfOk, OnOk};
ghost use Rattle.tal_rom.specs.Assembly.{IsAssembled, first_fault};
ghost use Rattle.tal_listing.specs.Listing.{listing_of, memory_bytes, spaced_bytes, word_line, HoldsItsWords};
ghost use Rattle.tal_rom.specs.Rom.{rom_limit};

use std::alloc::{AllocError, Global};
use tal_labels::PlacedWord;
use tal_rom::Assembly;
use uxn_io_traits::{append_pieces, decimal, hex_byte, hex_short};
use uxn_limits::addresses;

/// The listing of the assembly of a source: for each word that has bytes a line with its address, its
/// bytes, the line and column of the source word from which it came, and the word itself.
#[tactic(auto, unfolding(crate::specs::Listing::listing_of))]
pub fn listing(alloc: Global, source: &[u8], assembly: &Assembly) -> Result<Vec<u8>, AllocError>
    requires { IsAssembled source.now (Ok assembly.now) }
    ensures { IfOk result (λ text. text.items ≡ listing_of source.now assembly.now) }
{
    let mut text = Vec::new(alloc);
    for word in assembly.places() {
        if word.size > 0 {
            append_word_line(&mut text, source, assembly.rom(), word)?;
        }
    }
    Ok(text)
}

/// The bytes that a listing shows beside a word are those that the word represents.
#[tactic(auto, using(crate::proofs::ListingLemmas::holds_words))]
pub fn listed_bytes_are_the_words()
    ensures { (source : List ℕ) → first_fault source ≡ None → HoldsItsWords source }
{}

/// Appends the line of a word that has bytes.
fn append_word_line(
    text: &mut Vec<u8>,
    source: &[u8],
    rom: &[u8],
    word: &PlacedWord,
) -> Result<(), AllocError>
    requires start { 256 ≤ word.now.address }
    requires end { word.now.address < 65536 }
    ensures { OnOk result (text.new.items ≡ text.old.items ++ (word_line source.now rom.now word.now ++ 10 ∷ [])) }
{
    text.extend_from_slice(&hex_short(word.address as u16))?;
    append_memory(
        text,
        rom,
        (word.address - addresses::FIRST_ADDRESS) as usize,
        word.size,
    )?;
    append_pieces(
        text,
        &[
            b"  ",
            decimal(word.word.origin.line as u64).as_slice(),
            b":",
            decimal(word.word.origin.column as u64).as_slice(),
            b" ",
            word.word.text.text(source),
            b"\n",
        ],
    )
}

/// Appends so many bytes from an offset of the ROM on as digits, each with a space before it.
fn append_memory(
    text: &mut Vec<u8>,
    rom: &[u8],
    offset: usize,
    count: u16,
) -> Result<(), AllocError>
    requires { offset ≤ rom_limit }
    ensures { OnOk result (text.new.items ≡ text.old.items ++ spaced_bytes (memory_bytes rom.now (offset + 256) count)) }
{
    for i in 0..count {
        let byte = rom.get(offset + i as usize).copied().unwrap_or(0);
        let [high, low] = hex_byte(byte);
        text.extend_from_slice(&[b' ', high, low])?;
    }
    Ok(())
}
