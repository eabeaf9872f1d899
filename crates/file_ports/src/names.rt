//! Names that a program writes to memory.
ghost use Rattle.std.specs.Prelude.{◌≡◌, ◌+◌, ◌++◌, length};
ghost use Rattle.std.specs.Option.{option_copied};
ghost use Rattle.file_ports.specs.Names.{bytes_around, before_zero, named_in, path_named};

use uxn_io_traits::Path;
use uxn_memory::Memory;

/// The first bytes and the rest, which are 256 together.
fn both(first: &[u8], rest: &[u8]) -> [u8; 256]
    requires { length first.now + length rest.now ≡ 256 }
    ensures { result ≡ first.now ++ rest.now }
{
    let mut bytes = [0; 256];
    bytes[..first.len()].copy_from_slice(first);
    bytes[first.len()..].copy_from_slice(rest);
    bytes
}

/// The 256 bytes from an address on, of which a name may have 255. Addresses wrap.
fn bytes_around(memory: &Memory, at: u16) -> [u8; 256]
    ensures { result ≡ bytes_around memory.now at }
{
    memory.known();
    let first = memory.slice(at, 256);
    both(first, memory.slice(0, 256 - first.len() as u16))
}

/// What stands before the first zero byte.
fn before_zero(bytes: &[u8]) -> Option<&[u8]>
    ensures { option_copied result ≡ before_zero bytes.now }
{
    match bytes.iter().position(|byte| *byte == 0) {
        Some(end) => Some(&bytes[..end]),
        None => None,
    }
}

/// The path that a name names beneath a root: `.` is the root itself.
#[tactic(auto, unfolding(crate::specs::Names::named_in))]
fn named_in(root: &Path, name: &[u8]) -> Option<Path>
    ensures { result ≡ named_in root.now name.now }
{
    if name == b".".as_slice() {
        return Some(*root);
    }
    let path = Path::read(name).ok()?;
    root.join(&path)
}

/// The path that the name at an address names, where there is a root.
pub(crate) fn path_named(memory: &Memory, at: u16, root: Option<&Path>) -> Option<Path>
    ensures { result ≡ path_named (option_copied root.entry) memory.now at }
{
    let root = root?;
    let bytes = bytes_around(memory, at);
    let name = before_zero(&bytes)?;
    named_in(root, name)
}
