//! Which bytes of memory a write to a port may change.
ghost use Rattle.std.specs.Prelude.{◌≡◌, ◌<◌, slice_index, slice_set};
ghost use Rattle.varvara_bus.specs.Effect.{footprint, range_meant, range_of, short_held};
ghost use Rattle.varvara_bus.specs.Footprints.{touches_memory};
ghost use Rattle.varvara_bus.specs.Touched.{touched_by_byte, touched_by_word};

use crate::ports::{Action, FileAct};
use system_port::{BankRange, target};
use uxn_memory::Memory;
use uxn_opcodes::Width;

/// The bytes of memory that a word written to a port may change, with the bytes stored in the ports.
#[tactic(auto, unfolding(crate::specs::Touched::touched_by_word))]
pub fn touched(memory: &Memory, page: &[u8; 256], width: Width, port: u8, value: u16) -> BankRange
    ensures { result ≡ touched_by_word memory.now page.now width port value }
{
    match width {
        Width::Byte => touched_by_byte(memory, page, port, (value % 256) as u8),
        Width::Short => {
            let (high, low) = ((value / 256) as u8, (value % 256) as u8);
            let next = port.wrapping_add(1);
            if Action::of(next).touches_memory() {
                touched_by_byte(memory, &page_with(page, port, high), next, low)
            } else {
                touched_by_byte(memory, page, port, high)
            }
        }
    }
}

/// The same of a byte.
fn touched_by_byte(memory: &Memory, page: &[u8; 256], port: u8, byte: u8) -> BankRange
    ensures { result ≡ touched_by_byte memory.now page.now port byte }
{
    let action = Action::of(port);
    if action.touches_memory() {
        action.range(memory, &page_with(page, port, byte))
    } else {
        BankRange::none()
    }
}

/// The bytes in the ports once one more is stored.
fn page_with(page: &[u8; 256], port: u8, byte: u8) -> [u8; 256]
    ensures { result ≡ slice_set page.now port byte }
{
    let mut page = *page;
    page[usize::from(port)] = byte;
    page
}

impl Action {
    /// Whether it may change memory.
    #[inline(always)]
    fn touches_memory(self) -> bool
        ensures { result ≡ touches_memory self }
    {
        match self {
            Action::Expands => true,
            Action::ActsOnFile(_, FileAct::Stat) => true,
            Action::ActsOnFile(_, FileAct::Read) => true,
            _ => false,
        }
    }

    /// The bytes of memory that it may change, with these bytes in the ports.
    fn range(self, memory: &Memory, page: &[u8; 256]) -> BankRange
        ensures { result ≡ range_of (footprint self).memory (slice_index page.now) memory.now }
    {
        match self {
            Action::Expands => target(memory, short_held(page, 0x02)),
            Action::ActsOnFile(number, FileAct::Stat) => {
                let base = number.base();
                range_meant(short_held(page, base + 0x04), short_held(page, base + 0x0a))
            }
            Action::ActsOnFile(number, FileAct::Read) => {
                let base = number.base();
                range_meant(short_held(page, base + 0x0c), short_held(page, base + 0x0a))
            }
            _ => BankRange::none(),
        }
    }
}

/// The short in a port and the next one.
fn short_held(page: &[u8; 256], port: u8) -> u16
    requires { port < 255 }
    ensures { result ≡ short_held (slice_index page.now) port }
{
    u16::from(page[usize::from(port)]) * 256 + u16::from(page[usize::from(port) + 1])
}

/// So many bytes of bank 0 from an address on, but none past its end.
fn range_meant(at: u16, length: u16) -> BankRange
    ensures { result ≡ range_meant at length }
{
    let room = 65536 - u32::from(at);
    let count = if u32::from(length) < room {
        length
    } else {
        room as u16
    };
    BankRange {
        bank: 0,
        first: at,
        count,
    }
}
