//! The symbol file of labels.

ghost use Rattle.std.specs.Prelude.{◌≡◌, ◌++◌, IfOk, OnOk};
ghost use Rattle.tal_symbols.specs.SymbolFile.{entry, symbol_file};

use std::alloc::{AllocError, Global};
use tal_words::Label;

/// The symbol file of labels: for each in order its address, the high byte first, its name and a zero
/// byte.
pub fn write_symbols(alloc: Global, labels: &[Label]) -> Result<Vec<u8>, AllocError>
    ensures { IfOk result (λ bytes. bytes.items ≡ symbol_file labels.now) }
{
    let mut bytes = Vec::new(alloc);
    for label in labels {
        append_entry(&mut bytes, label)?;
    }
    Ok(bytes)
}

/// Appends the entry of a label.
fn append_entry(bytes: &mut Vec<u8>, label: &Label) -> Result<(), AllocError>
    ensures { OnOk result (bytes.new.items ≡ bytes.old.items ++ entry label.now) }
{
    bytes.extend_from_slice(&label.address.to_be_bytes())?;
    bytes.extend_from_slice(label.name.bytes())?;
    bytes.extend_from_slice(&[0])
}
