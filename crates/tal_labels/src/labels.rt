//! Labels by their full names.

ghost use Rattle.std.specs.Prelude.{◌≡◌, ◌<◌, ◌^◌, ◌++◌, ℕ, List, false, Ok, OnOk, OnErr, IfOk, OnSome};
ghost use Rattle.std.specs.Option.{option_map};
ghost use Rattle.tal_words.specs.Names.{scope_of as scope_of_name, full_name as full_name_in};
ghost use Rattle.tal_labels.specs.Answers.{label_of, next_scope};
ghost use Rattle.std.specs.List.{AllByRecursion};
ghost use Rattle.tal_words.specs.declared.span.Expanded.{Expanded};
ghost use Rattle.tal_labels.specs.Labels.{defined_name as name_defined, labels_of, HasNoBlank, IsNamed};
ghost use Rattle.tal_labels.specs.Placing.{is_defined as is_among};

use crate::label_index::LabelIndex;
use std::alloc::{AllocError, Global};
use tal_words::Form;

/// The scope before the first label.
pub const FIRST_SCOPE: &[u8] = b"RESET";

/// The byte that parts a scope from the name in it.
pub(crate) const SLASH: u8 = b'/';

/// The name up to the first `/`.
pub fn scope_of(name: &[u8]) -> &[u8]
    ensures { result.now ≡ scope_of_name name.now }
{
    for (length, byte) in name.iter().enumerate() {
        if *byte == SLASH {
            return &name[..length];
        }
    }
    name
}

/// The scope after a word: a label opens one.
pub fn next_scope<'a>(form: Form, scope: &'a [u8], text: &'a [u8]) -> &'a [u8]
    ensures { result.now ≡ next_scope form scope.now text.now }
{
    match (form, text) {
        (Form::LabelDef, [_, name @ ..]) => scope_of(name),
        (Form::LabelDef, []) => scope_of(text),
        _ => scope,
    }
}

/// The full name that a word defines.
pub fn defined_name(
    alloc: Global,
    form: Form,
    scope: &[u8],
    text: &[u8],
) -> Result<Option<Vec<u8>>, AllocError>
    ensures { IfOk result (λ name. option_map (λ bytes. bytes.items) name ≡ name_defined (Ok form) scope.now text.now) }
{
    match form {
        Form::LabelDef => {
            let (_, name) = text.split_at(text.len().min(1));
            Vec::from_slice(alloc, name).map(Some)
        }
        Form::SubDef => full_name(alloc, scope, text).map(Some),
        _ => Ok(None),
    }
}

/// The name in its scope where it begins with `&` or `/`, and else the name itself.
pub fn full_name(alloc: Global, scope: &[u8], name: &[u8]) -> Result<Vec<u8>, AllocError>
    ensures { IfOk result (λ bytes. bytes.items ≡ full_name_in scope.now name.now) }
{
    match name {
        [b'&' | SLASH, rest @ ..] => {
            let mut bytes = Vec::with_capacity(alloc, scope.len() + 1 + rest.len())?;
            bytes.extend_from_slice(scope)?;
            bytes.push(SLASH)?;
            bytes.extend_from_slice(rest)?;
            Ok(bytes)
        }
        _ => Vec::from_slice(alloc, name),
    }
}

/// Whether a name is that of a label.
pub fn is_defined(labels: &LabelIndex, name: &Option<Vec<u8>>) -> bool
    ensures { result ≡ is_among labels.now (option_map (λ bytes. bytes.items) name.now) }
{
    match name {
        Some(name) => labels.has(name.as_slice()),
        None => false,
    }
}

/// Adds the label of a name that no label has.
pub fn define(
    labels: &mut LabelIndex,
    alloc: Global,
    name: Option<Vec<u8>>,
    address: u64,
) -> Result<(), AllocError>
    requires fits { OnSome name (address < 2 ^ 16) }
    requires new { is_among labels.old (option_map (λ bytes. bytes.items) name) ≡ false }
    ensures ok { OnOk result (labels.new ≡ labels.old ++ label_of (option_map (λ bytes. bytes.items) name) address) }
    ensures err { OnErr result (labels.new ≡ labels.old) }
{
    match name {
        Some(name) => labels.define(alloc, name, address as u16),
        None => Ok(()),
    }
}

/// Where no word has a blank in it, the names of labels are not empty and have none either.
pub fn names_of_labels_have_no_blank()
    ensures { (source : List ℕ) (words : List Expanded) → AllByRecursion (HasNoBlank source) words
        → AllByRecursion IsNamed (labels_of source words) }
{}
