//! The labels of a symbol file.
ghost use Rattle.uxn_io_traits.specs.Inquires.{Inquires, Says};
ghost use Rattle.uxn_cli.specs.Accepted.{symbols_of, validated_symbols};

use super::inputs::{InputKind, read_text};
use super::refusal::Refusal;
use std::alloc::Global;
use tal_symbols::{SymbolStop, read_symbols};
use tal_words::Label;
use uxn_io_traits::{Halt, Path, Tree};

/// The labels of a text.
fn validate_symbols(alloc: Global, text: &[u8]) -> Result<Vec<Label>, Halt<Refusal>>
    ensures { Says (λ labels. labels.items) (validated_symbols text.now) result }
{
    match read_symbols(alloc, text) {
        Ok(labels) => Ok(labels),
        Err(SymbolStop::Refused { entry, kind }) => {
            Err(Halt::Refused(Refusal::BadSymbols(entry, kind)))
        }
        Err(SymbolStop::NoMemory) => Err(Halt::NoMemory),
    }
}

/// The labels of the symbol file that is requested; without one the labels that there are.
pub fn accept_symbols<T: Tree>(
    alloc: Global,
    path: &Option<Path>,
    labels: Vec<Label>,
    tree: &mut T,
) -> Result<Vec<Label>, Halt<Refusal>>
    ensures { Inquires (λ given. given.items) (symbols_of labels.items path.now) (T.state tree.old) (T.state tree.new) result }
{
    let Some(path) = path else {
        return Ok(labels);
    };
    let text = read_text(alloc, InputKind::Symbols, path, tree)?;
    validate_symbols(alloc, text.as_slice())
}
