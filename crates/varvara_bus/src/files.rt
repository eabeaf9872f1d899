//! The ports of the file devices.
ghost use Rattle.std.specs.Prelude.{◌≡◌, ◌≤◌, None};
ghost use Rattle.uxn_io_traits.specs.Faults.{Counted};
ghost use Rattle.uxn_io_traits.specs.Ended.{TreeEnded};
ghost use Rattle.file_ports.specs.Device.{Suits};
ghost use Rattle.file_ports.specs.AnswersAction.{changes_by, has_failed};
ghost use Rattle.varvara_bus.specs.State.{DeviceState, DevicesRepresent, device_clock};
ghost use Rattle.varvara_bus.specs.FileActs.{with_file, file_action};
ghost use Rattle.varvara_bus.specs.FileCalls.{
  action_requested,
  act_requested,
  Performed,
  FileAnswers,
  FileEnded,
  stop_of,
  stopped_by_tree,
};
ghost use Rattle.varvara_bus.specs.Bus.{FilesStay, file_held};

use crate::devices::Devices;
use crate::ports::{FileAct, FileNumber};
use file_ports::{FileDevice, FileStop};
use uxn_io_traits::{Path, Tree};
use uxn_memory::Memory;
use uxn_opcodes::Stop;

/// What is asked of a file device, with its address, its length, and whether a file is kept.
#[derive(Clone, Copy)]
pub(crate) enum Request {
    Stat(u16, u16),
    Delete,
    Name(u16),
    Read(u16, u16),
    Write(u16, u16, bool),
}

/// What the ports of a file device ask of it, the first of which is given.
fn requested(devices: &Devices, act: FileAct, base: u8) -> Request
    requires { base ≤ 0xb0 }
    ensures action { (state : DeviceState) → DevicesRepresent devices.now state → action_requested result ≡ file_action act state.history base }
    ensures act { act_requested result ≡ act }
{
    let length = devices.stored_short(base + 0x0a);
    match act {
        FileAct::Stat => Request::Stat(devices.stored_short(base + 0x04), length),
        FileAct::Delete => Request::Delete,
        FileAct::Name => Request::Name(devices.stored_short(base + 0x08)),
        FileAct::Read => Request::Read(devices.stored_short(base + 0x0c), length),
        FileAct::Write => {
            let keep = devices.stored(base + 0x07) % 2 == 1;
            Request::Write(devices.stored_short(base + 0x0e), length, keep)
        }
    }
}

/// Does what is asked of a file device.
fn perform<T: Tree>(
    device: &mut FileDevice,
    tree: &mut T,
    memory: &mut Memory,
    root: Option<Path>,
    request: Request,
) -> Result<u16, FileStop>
    requires { Suits root device.old }
    ensures tree { TreeEnded (changes_by (action_requested request) (T.state tree.old).contents device.old memory.old) (has_failed result)
        (T.state tree.old) (T.state tree.new) }
    ensures acted { Performed (action_requested request) root device.old memory.old (T.state tree.old).contents result device.new memory.new }
    ensures suits { Suits root device.new }
    ensures untouched { device.old.path ≡ None → tree.new ≡ tree.old }
{
    match request {
        Request::Stat(at, length) => device.stat(tree, memory, at, length),
        Request::Delete => device.delete(tree),
        Request::Name(at) => {
            device.name(memory, at, root.as_ref());
            Ok(0)
        }
        Request::Read(at, length) => device.read(tree, memory, at, length),
        Request::Write(at, length, keep) => device.write(tree, memory, at, length, keep),
    }
}

/// Does what is asked of one of the two file devices.
fn perform_on<T: Tree>(
    devices: &mut Devices,
    tree: &mut T,
    memory: &mut Memory,
    number: FileNumber,
    request: Request,
) -> Result<u16, FileStop>
    ensures tree { TreeEnded (changes_by (action_requested request) (T.state tree.old).contents (file_held number devices.old) memory.old)
        (has_failed result) (T.state tree.old) (T.state tree.new) }
    ensures acted { Performed (action_requested request) devices.old.root (file_held number devices.old) memory.old (T.state tree.old).contents result
        (file_held number devices.new) memory.new }
    ensures stands { (state : DeviceState) → DevicesRepresent devices.old state
        → DevicesRepresent devices.new (with_file number (file_held number devices.new) state) }
    ensures page { devices.new.page ≡ devices.old.page }
    ensures frames { devices.new.time.frames ≡ devices.old.time.frames }
    ensures clock { device_clock devices.new ≡ device_clock devices.old }
    ensures root { devices.new.root ≡ devices.old.root }
    ensures untouched { devices.old.root ≡ None → tree.new ≡ tree.old }
{
    let root = devices.root;
    match number {
        FileNumber::First => perform(&mut devices.first_file, tree, memory, root, request),
        FileNumber::Second => perform(&mut devices.second_file, tree, memory, root, request),
    }
}

/// Makes a file device act by its ports, and stores its success.
#[inline(never)]
pub(crate) fn act_on_file<T: Tree>(
    devices: &mut Devices,
    tree: &mut T,
    memory: &mut Memory,
    number: FileNumber,
    act: FileAct,
) -> Result<(), Stop>
    ensures tree { FileEnded number act devices.old memory.old (stopped_by_tree result) (T.state tree.old) (T.state tree.new) }
    ensures acted { FileAnswers number act devices.old memory.old (T.state tree.old).contents result devices.new memory.new }
    ensures counted { Counted (T.state tree.old).tally (T.state tree.new).tally (stopped_by_tree result) }
    ensures stay { FilesStay devices.old.root (T.state tree.old).contents (T.state tree.new).contents }
    ensures frames { devices.new.time.frames ≡ devices.old.time.frames }
    ensures clock { device_clock devices.new ≡ device_clock devices.old }
    ensures root { devices.new.root ≡ devices.old.root }
    ensures untouched { devices.old.root ≡ None → tree.new ≡ tree.old }
{
    let request = requested(devices, act, number.base());
    match perform_on(devices, tree, memory, number, request) {
        Ok(success) => {
            devices.store_short(number.base() + 0x02, success);
            Ok(())
        }
        Err(stop) => Err(stop_of(stop)),
    }
}

/// A stop of a file device as one of a port.
fn stop_of(stop: FileStop) -> Stop
    ensures { result ≡ stop_of stop }
{
    match stop {
        FileStop::TreeFault => Stop::TreeFault,
        FileStop::NoMemory => Stop::NoMemory,
    }
}
