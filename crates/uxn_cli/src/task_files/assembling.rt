//! What `asm` does: a source is assembled, and what is requested is written.
ghost use Rattle.std.specs.Prelude.{◌≡◌, Ok, IfOk};
ghost use Rattle.tal_rom.specs.Assembly.{IsAssembled};
ghost use Rattle.uxn_io_traits.specs.Inquires.{Inquires};
ghost use Rattle.uxn_cli.specs.Accepted.{files_of, output_texts};
ghost use Rattle.uxn_cli.specs.Held.{model_of_files};
ghost use Rattle.uxn_cli.specs.Made.{AreApart, WritesOutputs};
ghost use Rattle.uxn_cli.specs.Outputs.{paths_of, observed_texts};

use super::making::make_outputs;
use super::outputs::{Output, fill_all, push_output};
use super::program::Program;
use super::refusal::{Halt, Refusal};
use super::sources::accept_source;
use std::alloc::{AllocError, Global};
use tal_include::AssembledSource;
use tal_listing::listing;
use tal_symbols::write_symbols;
use uxn_arguments::AssembleTask;
use uxn_io_traits::{Halt as InquiryHalt, Path, Tree};

/// The files that were requested, with what they are to hold.
#[tactic(auto, using(crate::proofs::OutputLemmas::pushed))]
fn outputs_of(
    alloc: Global,
    task: &AssembleTask,
    source: &AssembledSource,
) -> Result<Vec<Output>, AllocError>
    requires { IsAssembled source.now.text (Ok source.now.assembly) }
    ensures { IfOk result (λ outputs. observed_texts outputs.items ≡ output_texts task.now source.now.text) }
{
    let assembly = source.assembly();
    let mut outputs = Vec::new(alloc);
    let rom = Vec::from_slice(alloc, assembly.rom())?;
    push_output(&mut outputs, &task.out, rom)?;
    if let Some(path) = &task.symbols {
        let symbols = write_symbols(alloc, assembly.labels())?;
        push_output(&mut outputs, path, symbols)?;
    }
    if let Some(path) = &task.listing {
        let listing = listing(alloc, source.text(), assembly)?;
        push_output(&mut outputs, path, listing)?;
    }
    Ok(outputs)
}

/// What is written out of a source that is accepted.
#[derive(Drop)]
pub struct Written {
    /// The files that the source includes.
    pub included: Vec<Path>,
    /// The files, with what they are to hold.
    pub outputs: Vec<Output>,
}

/// Assembles the source in a file. All that takes memory is done here, before the first file is made.
pub fn assemble<T: Tree>(
    alloc: Global,
    task: &AssembleTask,
    tree: &mut T,
) -> Result<Written, InquiryHalt<Refusal>>
    ensures { Inquires model_of_files (files_of task.now) (T.state tree.old) (T.state tree.new) result }
{
    let source = accept_source(alloc, &task.file, tree)?;
    let outputs = outputs_of(alloc, task, &source);
    let program = Program::from(source);
    Ok(Written {
        included: program.included,
        outputs: outputs?,
    })
}

/// Writes the files that were requested: makes them, and then appends their bytes.
pub fn write_outputs<T: Tree>(written: &Written, tree: &mut T) -> Result<(), Halt>
    requires { AreApart (paths_of written.now.outputs.items) }
    ensures { WritesOutputs written.now.included.items (paths_of written.now.outputs.items) (observed_texts written.now.outputs.items)
        (T.state tree.old) (T.state tree.new) result }
{
    make_outputs(&written.included, &written.outputs, tree)?;
    fill_all(tree, &written.outputs)
}
