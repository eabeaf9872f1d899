//! The disassembly of a ROM.

ghost use Rattle.std.specs.Prelude.{◌≡◌, ◌≤◌, ◌<◌, ◌+◌, ◌++◌, ℕ, List, ◌∷◌, [], length, drop, slice_index, take, true, IfOk, OnOk};
ghost use Rattle.tal_words.specs.declared.name.Label.{Label};
ghost use Rattle.uxn_limits.specs.declared.limits.TheConstants.{TEXT_LIMIT};
ghost use Rattle.tal_words.specs.PlainTexts.{text_of_items};
ghost use Rattle.tal_symbols.specs.SymbolFile.{are_readable};
ghost use Rattle.tal_rom.specs.PlainWords.{AssemblesTo};
ghost use Rattle.tal_rom.specs.Rom.{rom_limit};
ghost use Rattle.tal_listing.specs.LabelChains.{AreChained};
ghost use Rattle.tal_listing.specs.Texts.{behind_name};
ghost use Rattle.tal_listing.specs.Disassembly.{disassembly, immediate_length, instruction_items, label_items};

use crate::chains::LabelChains;
use std::alloc::{AllocError, Global};
use tal_words::{Label, op_name};
use uxn_io_traits::{append_pieces, hex_byte, hex_short};
use uxn_limits::addresses;

/// The disassembly of a ROM: the line `|0100`, and then a line for each instruction, with its name, its
/// immediate as far as the ROM has it, and its address. Before an instruction each label of its address
/// has a line. With labels whose names can be read back, the text assembles to the ROM without the
/// zeros at its end, where it is no longer than a source may be.
pub fn disassemble(alloc: Global, rom: &[u8], labels: &[Label]) -> Result<Vec<u8>, AllocError>
    requires { length rom.now ≤ rom_limit }
    ensures value { IfOk result (λ text. text.items ≡ disassembly rom.now labels.now) }
    ensures assembles { IfOk result (λ text. are_readable labels.now ≡ true → length text.items ≤ TEXT_LIMIT
        → AssemblesTo text.items rom.now) }
{
    let chains = LabelChains::new(alloc, labels)?;
    disassemble_chained(alloc, rom, labels, &chains)
}

/// A disassembly assembles to its ROM without the zeros at the end: for each ROM of at most 65,280 bytes
/// and all labels whose names are not empty and have no byte up to a space, where the text is no longer
/// than a source may be.
pub fn disassemblies_assemble()
    ensures { (rom : List ℕ) (labels : List Label) → ((i : ℕ) → i < length rom → slice_index rom i < 256)
        → length rom ≤ rom_limit → are_readable labels ≡ true → length (disassembly rom labels) ≤ TEXT_LIMIT
        → AssemblesTo (disassembly rom labels) rom }
{}

/// The disassembly of a ROM, with the chains of its labels.
fn disassemble_chained(
    alloc: Global,
    rom: &[u8],
    labels: &[Label],
    chains: &LabelChains,
) -> Result<Vec<u8>, AllocError>
    requires rom { length rom.now ≤ rom_limit }
    requires chains { AreChained labels.now 0 chains.now.first.items chains.now.next.items }
    ensures { IfOk result (λ text. text.items ≡ disassembly rom.now labels.now) }
{
    let mut text = Vec::from_slice(alloc, b"|0100\n")?;
    let mut offset = 0;
    while offset < rom.len() {
        let address = (addresses::FIRST_ADDRESS as usize + offset) as u16;
        append_label_lines(&mut text, chains, labels, address)?;
        let immediate = immediate_of(rom, offset);
        append_instruction(&mut text, address, rom[offset], immediate)?;
        offset += 1 + immediate.len();
    }
    Ok(text)
}

/// How many bytes of an instruction follow its opcode.
fn immediate_len(opcode: u8) -> usize
    ensures value { result ≡ immediate_length opcode }
    ensures bound { result ≤ 2 }
{
    match opcode {
        0x80 | 0xc0 => 1,
        0x20 | 0x40 | 0x60 | 0xa0 | 0xe0 => 2,
        _ => 0,
    }
}

/// Appends the lines of the labels of an address.
fn append_label_lines(
    text: &mut Vec<u8>,
    chains: &LabelChains,
    labels: &[Label],
    address: u16,
) -> Result<(), AllocError>
    requires { AreChained labels.now 0 chains.now.first.items chains.now.next.items }
    ensures { OnOk result (text.new.items ≡ text.old.items ++ text_of_items (label_items labels.now address)) }
{
    let mut place = chains.first_of(labels, address);
    while place < labels.len() {
        append_pieces(text, &[b"( @", labels[place].name.bytes(), b" )\n"])?;
        place = chains.next_of(labels, place);
    }
    Ok(())
}

/// Appends the line of an instruction at an address.
fn append_instruction(
    text: &mut Vec<u8>,
    address: u16,
    opcode: u8,
    immediate: &[u8],
) -> Result<(), AllocError>
    ensures { OnOk result (text.new.items ≡ text.old.items
        ++ text_of_items (instruction_items (record { address = address; opcode = opcode; immediate = immediate.now }))) }
{
    text.extend_from_slice(&op_name(opcode))?;
    append_immediate(text, immediate)?;
    append_pieces(text, &[b" ( ", &hex_short(address), b" )\n"])
}

/// The bytes behind an opcode that belong to its instruction, as far as the ROM has them.
fn immediate_of(rom: &[u8], offset: usize) -> &[u8]
    requires { offset < length rom.now }
    ensures { result.now ≡ take (immediate_length (slice_index rom.now offset)) (drop (offset + 1) rom.now) }
{
    let rest = &rom[offset + 1..];
    &rest[..immediate_len(rom[offset]).min(rest.len())]
}

/// Appends the digits of an immediate, if there are any, with a space before them.
fn append_immediate(text: &mut Vec<u8>, bytes: &[u8]) -> Result<(), AllocError>
    ensures { OnOk result (text.new.items ≡ text.old.items ++ behind_name bytes.now) }
{
    if bytes.is_empty() {
        return Ok(());
    }
    text.push(b' ')?;
    for byte in bytes {
        text.extend_from_slice(&hex_byte(*byte))?;
    }
    Ok(())
}
