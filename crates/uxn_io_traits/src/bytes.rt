//! A list of bytes on the heap.
ghost use Rattle.std.specs.Prelude.{◌≡◌, ◌+◌, ◌-◌, ◌≤◌, ◌++◌, [], length, IfOk};
ghost use Rattle.uxn_io_traits.specs.ByteList.{tight, HasRoom};

use std::alloc::{AllocError, Global};
use std::marker::Model;

/// A list of bytes, with room for more.
#[derive(Debug, Drop)]
pub struct Bytes {
    items: Vec<u8>,
    room: usize,
}

impl Model for Bytes {
    ghost use Rattle.std.specs.Prelude.{◌-◌, ◌≤◌, vec_len, vec_capacity};
    ghost use Rattle.uxn_io_traits.specs.ByteList.{ByteList};

    ghost Value = { ByteList };

    ghost view = { λ b. record { list = b.items.items; spare = b.room - vec_len b.items } };

    ghost invariant = { λ b. (vec_len b.items ≤ b.room) × (b.room ≤ vec_capacity b.items) };
}

impl Bytes {
    /// Copies the bytes. Errors when out of memory.
    pub fn new(alloc: Global, bytes: &[u8]) -> Result<Bytes, AllocError>
        ensures { IfOk result (λ copy. copy ≡ tight bytes.now) }
    {
        Bytes::with_room(alloc, bytes, bytes.len())
    }

    /// Copies the bytes, and takes room for so many in all. Errors when out of memory.
    pub fn with_room(alloc: Global, bytes: &[u8], room: usize) -> Result<Bytes, AllocError>
        requires { length bytes.now ≤ room }
        ensures copy { IfOk result (λ copy. copy ≡ record { list = bytes.now; spare = room - length bytes.now }) }
        ensures room { IfOk result (HasRoom room) }
    {
        let mut items = Vec::with_capacity(alloc, room)?;
        items.extend_from_slice(bytes)?;
        Ok(Bytes { items, room })
    }

    /// The bytes.
    pub fn as_slice(&self) -> &[u8]
        ensures { result.now ≡ self.now.list }
    {
        self.items.as_slice()
    }

    /// Puts more bytes behind those that are there. It takes no memory.
    pub fn append(&mut self, more: &[u8])
        requires { length more.now ≤ self.old.spare }
        ensures { self.new ≡ record { list = self.old.list ++ more.now; spare = self.old.spare - length more.now } }
    {
        self.items.extend_from_slice(more).unwrap();
    }

    /// Takes all bytes away. Their room stays.
    pub fn clear(&mut self)
        ensures { self.new ≡ record { list = []; spare = self.old.spare + length self.old.list } }
    {
        self.items.clear();
    }
}

/// The bytes of a vector, which is taken over as it is.
impl From<Vec<u8>> for Bytes {
    ghost use Rattle.std.specs.Prelude.{◌≡◌};
    ghost use Rattle.uxn_io_traits.specs.ByteList.{tight};

    ghost from_gives = { λ items bytes. bytes ≡ tight items.items };

    fn from(items: Vec<u8>) -> Bytes {
        let room = items.len();
        Bytes { items, room }
    }
}
