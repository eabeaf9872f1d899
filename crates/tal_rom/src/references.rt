//! What references name, and what is wrong with them.

ghost use Rattle.std.specs.Prelude.{◌≡◌, ◌<◌, ◌≤◌, ◌^◌, ℕ, Option, true, IfOk, slice_get};
ghost use Rattle.tal_words.specs.FirstFault.{are_in_order};
ghost use Rattle.tal_words.specs.declared.form.Form.{Form as FormValue};
ghost use Rattle.tal_labels.specs.Answers.{FindsNone};
ghost use Rattle.tal_labels.specs.Placing.{LieApart};
ghost use Rattle.tal_words.specs.Forms.{is_near as is_near_target, reaches as reaches_target};
ghost use Rattle.tal_words.specs.Names.{name_after_rune as name_of_reference, full_name as full_name_in};
ghost use Rattle.tal_words.specs.Labels.{address_named};
ghost use Rattle.tal_rom.specs.Answers.{HasAddress};
ghost use Rattle.tal_rom.specs.References.{target_in, reference_kinds, reference_fault};

use std::alloc::{AllocError, Global};
use tal_labels::{FIRST_SCOPE, Placed, PlacedWord, full_name, next_scope};
use tal_words::{AsmStop, Fault, FaultKind, Form, Rune, opens, rune_of};

/// The name of a reference: what stands after its rune, or a bare word itself.
pub fn name_after_rune(text: &[u8]) -> &[u8]
    ensures { result.now ≡ name_of_reference text.now }
{
    match text {
        [first, name @ ..] if rune_of(*first).is_some() => name,
        _ => text,
    }
}

/// The address of the label that a name represents in a scope.
fn address_in(
    alloc: Global,
    placed: &Placed,
    scope: &[u8],
    name: &[u8],
) -> Result<Option<u16>, AllocError>
    ensures { IfOk result (λ address. address ≡ address_named placed.now.labels (full_name_in scope.now name.now)) }
{
    let full = full_name(alloc, scope, name)?;
    Ok(placed.address_of(full.as_slice()))
}

/// The target of a word in its scope, where it is a reference that names something.
fn target_in(
    alloc: Global,
    placed: &Placed,
    scope: &[u8],
    text: &[u8],
    word: &PlacedWord,
) -> Result<Option<u16>, AllocError>
    ensures { IfOk result (λ target. target ≡ target_in placed.now.labels scope.now text.now word.now) }
{
    match word.form {
        Form::Refer(_) => {
            if opens(text) {
                return Ok(word.lambda);
            }
            address_in(alloc, placed, scope, name_after_rune(text))
        }
        _ => Ok(None),
    }
}

/// What is wrong with a word at an address, by its target.
fn reference_kind(form: Form, address: u64, target: Option<u16>) -> Option<FaultKind>
    requires { HasAddress form address }
    ensures { result ≡ slice_get (reference_kinds form address target) 0 }
{
    match (form, target) {
        (Form::Refer(_), None) => Some(FaultKind::UnknownName),
        (Form::Refer(rune), Some(target)) => {
            if reaches(rune, address, target as u64) {
                None
            } else {
                Some(FaultKind::TooFar)
            }
        }
        _ => None,
    }
}

/// Whether a reference at an address can hold its target.
pub fn reaches(rune: Rune, address: u64, target: u64) -> bool
    requires at { address < 2 ^ 16 }
    requires to { target < 2 ^ 16 }
    ensures { result ≡ reaches_target rune address target }
{
    match rune {
        Rune::LitRel => is_near(address + 1, target),
        Rune::RawRel => is_near(address, target),
        _ => true,
    }
}

/// Whether the distance from a byte to a target, less 2, lies in -128 to 127.
fn is_near(address: u64, target: u64) -> bool
    requires at { address ≤ 2 ^ 16 }
    requires to { target < 2 ^ 16 }
    ensures { result ≡ is_near_target address target }
{
    address + 2 <= target + 128 && target <= address + 129
}

/// Finds the first fault of the references among placed words, which lie apart.
pub fn check_references(alloc: Global, source: &[u8], placed: &Placed) -> Result<(), AsmStop>
    requires { LieApart source.now placed.now.words }
    ensures { FindsNone result (reference_fault source.now placed.now.labels placed.now.words) }
{
    let mut scope = FIRST_SCOPE;
    let words = placed.words();
    for word in words {
        let text = word.word.text.text(source);
        let target = target_in(alloc, placed, scope, text, word)?;
        if let Some(kind) = reference_kind(word.form, word.address, target) {
            return Err(AsmStop::Refused(Fault::new(&word.word.origin, kind)));
        }
        scope = next_scope(word.form, scope, text);
    }
    Ok(())
}

/// What is wrong with a reference stands in the order of its kinds, so that the first is the least.
#[tactic(auto, using(crate::proofs::Checking::reference_in_order))]
pub fn faults_of_references_are_in_order()
    ensures { (form : FormValue) (address : ℕ) (target : Option ℕ) → are_in_order (reference_kinds form address target) ≡ true }
{}
