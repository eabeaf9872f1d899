//! The labels of a symbol file.

ghost use Rattle.std.specs.Prelude.{◌≡◌, ◌≤◌, ◌<◌, ◌==◌, ℕ, List, length, true, None, Ok, IfOk};
ghost use Rattle.std.specs.List.{list_any, position_or_len};
ghost use Rattle.tal_words.specs.declared.name.Label.{Label};
ghost use Rattle.tal_words.specs.Source.{is_blank};
ghost use Rattle.uxn_limits.specs.declared.limits.TheConstants.{SYMBOLS_LIMIT};
ghost use Rattle.tal_symbols.specs.SymbolFile.{symbol_file, are_readable};
ghost use Rattle.tal_symbols.specs.Reading.{symbols_in, bad_name, entry_fault, label_of_entry, name_before_zero};
ghost use Rattle.tal_symbols.specs.Answers.{ReadsSymbols, AreLabelsRead, entry_length};

use crate::stop::{SymbolKind, SymbolStop};
use std::alloc::{AllocError, Global};
use tal_words::{Label, Name};
use uxn_limits::limits;

/// The labels of a symbol file: those whose names are not empty and have no byte up to a space, and
/// whose symbol file these bytes are. Refused with the first entry that no such label has, and the
/// least kind of what is wrong with it, or as `Long` at entry 0.
#[tactic(auto, unfolding(crate::specs::Reading::symbols_in))]
pub fn read_symbols(alloc: Global, bytes: &[u8]) -> Result<Vec<Label>, SymbolStop>
    ensures found { ReadsSymbols (symbols_in bytes.now) result }
    ensures means { AreLabelsRead bytes.now result }
{
    if bytes.len() > limits::SYMBOLS_LIMIT {
        return Err(SymbolStop::Refused {
            entry: 0,
            kind: SymbolKind::Long,
        });
    }
    let mut labels = Vec::new(alloc);
    let mut rest = bytes;
    while !rest.is_empty() {
        let (entry, others) = rest.split_at(entry_len(rest));
        if let Some(kind) = entry_fault(entry) {
            let entry = labels.len() as u32;
            return Err(SymbolStop::Refused { entry, kind });
        }
        let label = label_of_entry(alloc, entry)?;
        labels.push(label)?;
        rest = others;
    }
    Ok(labels)
}

/// What was written of labels is read back: of labels whose names are not empty and have no byte up to
/// a space, where the file is not too long.
pub fn written_symbols_are_read()
    ensures { (labels : List Label) → are_readable labels ≡ true → length (symbol_file labels) ≤ SYMBOLS_LIMIT
        → symbols_in (symbol_file labels) ≡ Ok labels }
{}

/// How many bytes the first entry of a file has: up to and with the first zero byte behind its two
/// address bytes, or all.
fn entry_len(rest: &[u8]) -> usize
    ensures value { result ≡ entry_length rest.now }
    ensures within { result ≤ length rest.now }
    ensures some { 0 < length rest.now → 0 < result }
{
    match rest {
        [_, _, text @ ..] => 2 + (zero_at(text) + 1).min(text.len()),
        _ => rest.len(),
    }
}

/// The offset of the first zero byte, or of the end.
fn zero_at(text: &[u8]) -> usize
    ensures value { result ≡ position_or_len (λ byte. byte == 0) text.now }
    ensures within { result ≤ length text.now }
{
    for (at, byte) in text.iter().enumerate() {
        if *byte == 0 {
            return at;
        }
    }
    text.len()
}

/// The bytes before the first zero byte.
fn name_before_zero(text: &[u8]) -> &[u8]
    ensures { result.now ≡ name_before_zero text.now }
{
    &text[..zero_at(text)]
}

/// What is wrong with an entry: it is torn, or its name is empty or has a byte up to a space.
fn entry_fault(entry: &[u8]) -> Option<SymbolKind>
    ensures { result ≡ entry_fault entry.now }
{
    match entry {
        [_, _, text @ ..] => {
            if text.contains(&0) {
                bad_name(name_before_zero(text))
            } else {
                Some(SymbolKind::Torn)
            }
        }
        _ => Some(SymbolKind::Torn),
    }
}

/// What is wrong with a name.
fn bad_name(name: &[u8]) -> Option<SymbolKind>
    ensures { result ≡ bad_name name.now }
{
    if name.is_empty() {
        return Some(SymbolKind::NoName);
    }
    if has_blank(name) {
        return Some(SymbolKind::BadByte);
    }
    None
}

/// Whether a name has a byte up to a space.
fn has_blank(name: &[u8]) -> bool
    ensures { result ≡ list_any is_blank name.now }
{
    name.iter().any(|byte| is_blank(*byte))
}

/// Whether a byte is a space or below.
fn is_blank(byte: u8) -> bool
    ensures { result ≡ is_blank byte }
{
    byte <= b' '
}

/// The label of an entry.
fn label_of_entry(alloc: Global, entry: &[u8]) -> Result<Label, AllocError>
    requires { entry_fault entry.now ≡ None }
    ensures { IfOk result (λ label. label ≡ label_of_entry entry.now) }
{
    match entry {
        [high, low, text @ ..] => {
            let name = Name::new(alloc, name_before_zero(text))?;
            let address = u16::from_be_bytes([*high, *low]);
            Ok(Label { name, address })
        }
        _ => unreachable!(),
    }
}
