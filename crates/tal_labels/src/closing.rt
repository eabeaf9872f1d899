//! Which `}` closes which lambda.

ghost use Rattle.std.specs.Prelude.{◌≡◌, IfOk, OnOk, None, reverse, slice_get, if◌then◌else◌};
ghost use Rattle.tal_words.specs.Braces.{opens, closes};
ghost use Rattle.tal_labels.specs.Answers.{waiting_step};
ghost use Rattle.tal_labels.specs.Shapes.{closers_of as closers_among};

use std::alloc::{AllocError, Global};
use tal_words::{Expanded, closes, opens};

/// For each word that opens a lambda the index of the `}` that closes it, where there is one.
pub fn closers_of(
    alloc: Global,
    source: &[u8],
    words: &[Expanded],
) -> Result<Vec<Option<usize>>, AllocError>
    ensures { IfOk result (λ closers. closers.items ≡ closers_among source.now words.now) }
{
    let mut waiting = Vec::new(alloc);
    let mut closers = Vec::new(alloc);
    for at in (0..words.len()).rev() {
        let closer = closer_at(words[at].text.text(source), at, &mut waiting)?;
        closers.push(closer)?;
    }
    closers.reverse();
    Ok(closers)
}

/// The index of the `}` that closes the lambda of a word, by the `}` after the word that wait for an
/// opener, of which the next one stands last.
fn closer_at(text: &[u8], at: usize, waiting: &mut Vec<usize>) -> Result<Option<usize>, AllocError>
    ensures value { IfOk result (λ closer. closer ≡ (if opens text.now then slice_get (reverse waiting.old.items) 0 else None)) }
    ensures rest { OnOk result (reverse waiting.new.items
        ≡ waiting_step at (opens text.now) (closes text.now) (reverse waiting.old.items)) }
{
    if opens(text) {
        return Ok(waiting.pop());
    }
    if closes(text) {
        waiting.push(at)?;
    }
    Ok(None)
}
