//! What `dis` prints.
ghost use Rattle.uxn_io_traits.specs.Inquires.{Inquires};
ghost use Rattle.uxn_cli.specs.Accepted.{disassembly_of};

use super::inputs::{InputKind, read_text};
use super::refusal::Refusal;
use super::symbols::accept_symbols;
use std::alloc::Global;
use tal_listing::disassemble;
use uxn_arguments::DisassembleTask;
use uxn_io_traits::{Halt, Tree};

/// The disassembly of a ROM file, where it and the symbols are accepted.
pub fn disassemble_rom<T: Tree>(
    alloc: Global,
    task: &DisassembleTask,
    tree: &mut T,
) -> Result<Vec<u8>, Halt<Refusal>>
    ensures { Inquires (λ text. text.items) (disassembly_of task.now) (T.state tree.old) (T.state tree.new) result }
{
    let rom = read_text(alloc, InputKind::BankRom, &task.file, tree)?;
    let labels = accept_symbols(alloc, &task.symbols, Vec::new(alloc), tree)?;
    disassemble(alloc, rom.as_slice(), &labels).map_err(Halt::from)
}
