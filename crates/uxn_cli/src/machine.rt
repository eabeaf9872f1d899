//! A machine before its run.
ghost use Rattle.std.specs.Prelude.{◌≡◌, ◌≤◌, length, IfOk};
ghost use Rattle.uxn_memory.specs.Bytes.{largest_rom};
ghost use Rattle.uxn_opcodes.specs.Rule.{new_core};
ghost use Rattle.uxn_undo.specs.Row.{IsMachine};
ghost use Rattle.uxn_cli.specs.Prepared.{AreNew};

use std::alloc::{AllocError, Global};
use text_lines::Script;
use uxn_io_traits::Path;
use uxn_line::clock_of;
use uxn_opcodes::Core;
use varvara_bus::Devices;

/// A machine with a program, before its run.
#[derive(Drop)]
pub struct Machine {
    /// The machine itself.
    pub core: Core,
    /// Its devices.
    pub devices: Devices,
    /// What it is given.
    pub script: Script,
}

/// Tells contracts what holds of every core.
pub fn core_known(core: &Core)
    ensures { IsMachine core.now }
{
    core.memory.known();
    core.working.known();
    core.returns.known();
}

/// A new machine, with all the memory that its run takes, but for the listing of a folder.
pub fn new_machine(
    alloc: Global,
    root: Option<Path>,
    rom: &[u8],
    script: Script,
) -> Result<Box<Machine>, AllocError>
    requires { length rom.now ≤ largest_rom }
    ensures core { IfOk result (λ machine. machine.value.core ≡ new_core rom.now) }
    ensures devices { IfOk result (λ machine. AreNew machine.value.devices script root) }
    ensures script { IfOk result (λ machine. machine.value.script ≡ script) }
{
    let core = Core::new(alloc, rom)?;
    script.known();
    let devices = Devices::new(alloc, root, clock_of(script.clock()))?;
    let machine = Machine {
        core,
        devices,
        script,
    };
    let boxed = Box::new(alloc, machine)?;
    Ok(boxed)
}
