//! What `line` is given: a setup, and the machines that it names.
ghost use Rattle.std.specs.Prelude.{[], ◌≡◌, ◌≤◌, length, IfOk};
ghost use Rattle.std.specs.List.{All};
ghost use Rattle.uxn_memory.specs.Bytes.{largest_rom};
ghost use Rattle.text_lines.specs.ScriptHeld.{bytes_in};
ghost use Rattle.uxn_io_traits.specs.Inquires.{Inquires, Says};
ghost use Rattle.uxn_io_traits.specs.Inquiry.{gather};
ghost use Rattle.uxn_cli.specs.Accepted.{machine_of, machines_of, said_setup, setup_of};
ghost use Rattle.uxn_cli.specs.Held.{AreMachines, model_of_machines};

use super::inputs::{InputKind, read_text};
use super::program::Program;
use super::refusal::Refusal;
use super::scripts::accept_script;
use super::sources::accept_source;
use std::alloc::Global;
use text_lines::{Script, Setup, SetupStop, read_setup};
use uxn_io_traits::{Bytes, Halt, Path, Tree};

/// What a line is made of, once all that its setup names is accepted.
#[derive(Drop)]
pub struct LineInputs {
    /// The setup.
    pub setup: Setup,
    /// The ROM of each machine.
    pub roms: Vec<Bytes>,
    /// The script of the first machine.
    pub script: Script,
}

/// The setup of a text.
fn validate_setup(alloc: Global, text: &[u8]) -> Result<Setup, Halt<Refusal>>
    ensures { Says (λ setup. setup) (said_setup text.now) result }
{
    match read_setup(alloc, text) {
        Ok(setup) => Ok(setup),
        Err(SetupStop::Refused { line, kind }) => {
            Err(Halt::Refused(Refusal::BadSetup(line, kind)))
        }
        Err(SetupStop::NoMemory) => Err(Halt::NoMemory),
    }
}

/// The setup at a path.
fn accept_setup<T: Tree>(alloc: Global, path: &Path, tree: &mut T) -> Result<Setup, Halt<Refusal>>
    ensures { Inquires (λ setup. setup) (setup_of path.now) (T.state tree.old) (T.state tree.new) result }
{
    let text = read_text(alloc, InputKind::Setup, path, tree)?;
    validate_setup(alloc, text.as_slice())
}

/// The ROM of the source in a file, where it is accepted.
fn accept_machine<T: Tree>(alloc: Global, path: &Path, tree: &mut T) -> Result<Bytes, Halt<Refusal>>
    ensures rom { Inquires (λ rom. rom.list) (machine_of path.now) (T.state tree.old) (T.state tree.new) result }
    ensures fits { IfOk result (λ rom. length rom.list ≤ largest_rom) }
{
    let source = accept_source(alloc, path, tree)?;
    Ok(Program::from(source).rom)
}

/// The ROMs of all machines, one after the other.
fn accept_roms<T: Tree>(
    alloc: Global,
    paths: &[Path],
    tree: &mut T,
) -> Result<Vec<Bytes>, Halt<Refusal>>
    ensures roms { Inquires (λ roms. bytes_in roms.items) (gather machine_of [] paths.now) (T.state tree.old) (T.state tree.new) result }
    ensures count { IfOk result (λ roms. length roms.items ≡ length paths.now) }
    ensures fit { IfOk result (λ roms. All (λ rom. length rom.list ≤ largest_rom) roms.items) }
{
    let mut roms = Vec::new(alloc);
    for path in paths {
        let rom = accept_machine(alloc, path, tree)?;
        roms.push(rom)?;
    }
    Ok(roms)
}

/// The machines of the setup at a path.
pub fn read_machines<T: Tree>(
    alloc: Global,
    path: &Path,
    tree: &mut T,
) -> Result<LineInputs, Halt<Refusal>>
    ensures reads { Inquires model_of_machines (machines_of path.now) (T.state tree.old) (T.state tree.new) result }
    ensures machines { IfOk result (λ inputs. AreMachines inputs.setup.sources inputs.roms.items) }
{
    let setup = accept_setup(alloc, path, tree)?;
    let roms = accept_roms(alloc, setup.sources(), tree)?;
    let script = accept_script(alloc, &setup.script(), tree)?;
    Ok(LineInputs {
        setup,
        roms,
        script,
    })
}
