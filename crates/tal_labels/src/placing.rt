//! Where words lie, and what is wrong with their addresses.

ghost use Rattle.std.specs.Prelude.{◌≡◌, ◌+◌, ◌-◌, ◌<◌, ◌≤◌, ◌^◌, length, nat_lt, Ok, None, IfOk, if◌then◌else◌, slice_get};
ghost use Rattle.tal_words.specs.Faults.{Gives};
ghost use Rattle.tal_words.specs.Forms.{size, encoded_reference};
ghost use Rattle.tal_labels.specs.Answers.{next_address};
ghost use Rattle.uxn_limits.specs.declared.addresses.TheConstants.{MEMORY_END};
ghost use Rattle.tal_labels.specs.Placing.{place_fault, layout_of, place_kinds, is_mark_form, LieApart};

use crate::placed::Placed;
use crate::placer::Placer;
use crate::shapes::check_shapes;
use std::alloc::Global;
use tal_words::{AsmStop, Expanded, FaultKind, Form, Rune};
use uxn_limits::addresses;

/// The number of bytes of a word.
pub fn size(form: Form, text: &[u8]) -> usize
    ensures { result ≡ size form text.now }
{
    match form {
        Form::Raw1(_) | Form::Op(_) => 1,
        Form::Lit1(_) | Form::Raw2(_) => 2,
        Form::Lit2(_) => 3,
        Form::Text => text.len().saturating_sub(1),
        Form::Refer(rune) => reference_size(rune),
        Form::Pad(_)
        | Form::Skip(_)
        | Form::LabelDef
        | Form::SubDef
        | Form::LambdaEnd
        | Form::Ignored => 0,
    }
}

/// The number of bytes of a reference.
fn reference_size(rune: Rune) -> usize
    ensures { result ≡ length (encoded_reference rune 0 0) }
{
    match rune {
        Rune::RawRel | Rune::RawZero => 1,
        Rune::LitRel | Rune::LitZero | Rune::RawAbs => 2,
        Rune::LitAbs | Rune::Jmi | Rune::Jci | Rune::Jsi => 3,
    }
}

/// The address after a word.
pub fn next_address(form: Form, text: &[u8], address: u64) -> u64
    ensures value { address < 2 ^ 63 → length text.now < 2 ^ 32 → result ≡ next_address form text.now address }
    ensures small { length text.now < 2 ^ 32 → result < address + 2 ^ 32 }
{
    match form {
        Form::Pad(value) => value as u64,
        Form::Skip(length) => address.saturating_add(length as u64),
        _ => address.saturating_add(size(form, text) as u64),
    }
}

/// A label or the end of a lambda.
pub fn is_mark_form(form: Form) -> bool
    ensures { result ≡ is_mark_form form }
{
    matches!(form, Form::LabelDef | Form::SubDef | Form::LambdaEnd)
}

/// What is wrong with the address of a word: `twice` where its name is defined before, `below` where
/// it lies below the end of an earlier word.
pub fn placing_kind(
    twice: bool,
    address: u64,
    length: usize,
    is_mark: bool,
    below: bool,
) -> Option<FaultKind>
    ensures { result ≡ slice_get (place_kinds twice address length is_mark below) 0 }
{
    if twice {
        return Some(FaultKind::LabelTwice);
    }
    if length > 0 && address < addresses::FIRST_ADDRESS {
        return Some(FaultKind::ZeroPage);
    }
    if length > 0 && ends_outside(address, length) || is_mark && address >= addresses::MEMORY_END {
        return Some(FaultKind::Outside);
    }
    if length > 0 && below {
        return Some(FaultKind::Rewind);
    }
    None
}

/// Whether a word ends past the last address.
fn ends_outside(address: u64, length: usize) -> bool
    ensures { result ≡ nat_lt MEMORY_END (address + length) }
{
    address > addresses::MEMORY_END || length as u64 > addresses::MEMORY_END - address
}

/// The greatest end of the words with bytes, after a word that does not lie below it.
pub fn next_top(top: u64, address: u64, length: usize) -> u64
    requires { 0 < length → address + length ≤ MEMORY_END }
    ensures { result ≡ (if nat_lt 0 length then address + length else top) }
{
    if length > 0 {
        address + length as u64
    } else {
        top
    }
}

/// The words with their addresses and the labels, or the first fault of the forms and braces of the
/// words, and then of their labels and addresses. In memory no two words overlap: each that has bytes
/// lies above those before it. The source has fewer than 2^32 bytes, and there are fewer than 2^31 - 1
/// words.
pub fn place(alloc: Global, source: &[u8], words: &[Expanded]) -> Result<Placed, AsmStop>
    requires source { length source.now < 2 ^ 32 }
    requires few { length words.now < 2 ^ 31 - 1 }
    ensures value { Gives (λ placed. placed) result (place_fault source.now words.now) (layout_of source.now words.now) }
    ensures apart { IfOk result (λ placed. LieApart source.now placed.words) }
{
    check_shapes(alloc, source, words)?;
    let mut placer = Placer::new(alloc);
    for word in words {
        placer.place_next(source, *word)?;
    }
    match placer.finish() {
        Some(placed) => Ok(placed),
        None => unreachable!(),
    }
}
