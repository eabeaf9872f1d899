//! The expansion port: records that fill and copy memory.
ghost use Rattle.std.specs.Prelude.{◌≡◌, ◌+◌, ◌%◌, ◌<◌, ◌≤◌, MatchOption};
ghost use Rattle.system_port.specs.Expansion.{byte_in, short_in, range_in, record_at, no_range, target_of, target_at, done, expanded};

use uxn_memory::{BANKS, Memory};

/// So many bytes of a bank from an address on. Addresses wrap within the bank.
#[derive(Clone, Copy)]
pub struct BankRange {
    pub bank: u16,
    pub first: u16,
    pub count: u16,
}

impl BankRange {
    /// No byte.
    pub fn none() -> BankRange
        ensures { result ≡ no_range }
    {
        BankRange {
            bank: 0,
            first: 0,
            count: 0,
        }
    }

    /// Its bank, where there is a bank of this number.
    fn bank(self) -> Option<u8>
        ensures { MatchOption result (16 ≤ self.bank) (λ bank. (bank ≡ self.bank) × (bank < 16)) }
    {
        if self.bank < u16::from(BANKS) {
            Some(self.bank as u8)
        } else {
            None
        }
    }
}

/// What a record requests.
#[derive(Clone, Copy)]
pub(crate) enum Record {
    /// All bytes of a range become a value.
    Fill(BankRange, u8),
    /// The bytes of the first range are copied to the second, the lowest address first.
    CopyUp(BankRange, BankRange),
    /// The same, the highest address first.
    CopyDown(BankRange, BankRange),
    /// No operation has this number.
    Unknown,
}

fn byte_in(memory: &Memory, at: u16, offset: u16) -> u8
    ensures { result ≡ byte_in memory.now at offset }
{
    memory.get(at.wrapping_add(offset))
}

fn short_in(memory: &Memory, at: u16, offset: u16) -> u16
    ensures { result ≡ short_in memory.now at offset }
{
    memory.get2(at.wrapping_add(offset))
}

/// The range whose bank and address stand so many bytes into a record, as long as the record says.
fn range_in(memory: &Memory, at: u16, offset: u16) -> BankRange
    requires { offset < 256 }
    ensures { result ≡ range_in memory.now at offset }
{
    BankRange {
        bank: short_in(memory, at, offset),
        first: short_in(memory, at, offset + 2),
        count: short_in(memory, at, 1),
    }
}

impl Record {
    /// The record at an address, whose own addresses wrap.
    #[tactic(auto, unfolding(crate::specs::Expansion::record_at))]
    fn at(memory: &Memory, at: u16) -> Record
        ensures { result ≡ record_at memory.now at }
    {
        match byte_in(memory, at, 0) {
            0x00 => Record::Fill(range_in(memory, at, 3), byte_in(memory, at, 7)),
            0x01 => Record::CopyUp(range_in(memory, at, 3), range_in(memory, at, 7)),
            0x02 => Record::CopyDown(range_in(memory, at, 3), range_in(memory, at, 7)),
            _ => Record::Unknown,
        }
    }

    /// The bytes that it changes at most.
    fn target(self) -> BankRange
        ensures { result ≡ target_of self }
    {
        match self {
            Record::Fill(to, _) => to,
            Record::CopyUp(from, to) | Record::CopyDown(from, to) => {
                if from.bank < u16::from(BANKS) {
                    to
                } else {
                    BankRange::none()
                }
            }
            Record::Unknown => BankRange::none(),
        }
    }

    /// Does what the record requests, where all its banks are there.
    fn perform(self, memory: &mut Memory)
        ensures { memory.new ≡ done self memory.old }
    {
        match self {
            Record::Fill(to, value) => {
                if let Some(bank) = to.bank() {
                    memory.fill(to.count, bank, to.first, value);
                }
            }
            Record::CopyUp(from, to) => {
                if let Some(from_bank) = from.bank()
                    && let Some(to_bank) = to.bank()
                {
                    memory.copy_up(to.count, from_bank, from.first, to_bank, to.first);
                }
            }
            Record::CopyDown(from, to) => {
                if let Some(from_bank) = from.bank()
                    && let Some(to_bank) = to.bank()
                {
                    memory.copy_down(to.count, from_bank, from.first, to_bank, to.first);
                }
            }
            Record::Unknown => {}
        }
    }
}

/// The bytes that the record at an address changes at most.
#[tactic(auto, unfolding(crate::specs::Expansion::target_at))]
pub fn target(memory: &Memory, at: u16) -> BankRange
    ensures { result ≡ target_at memory.now at }
{
    Record::at(memory, at).target()
}

/// Does what the record at an address says: its first byte 00 fills with a length, a bank, an address and a
/// value; 01 copies upwards and 02 downwards with a length, a source and a target, each a bank and an address.
/// The record is read whole from bank 0 before memory changes. Another first byte, or a bank above 15, does nothing.
#[tactic(auto, unfolding(crate::specs::Expansion::expanded))]
pub fn expansion(memory: &mut Memory, at: u16)
    ensures { memory.new ≡ expanded memory.old at }
{
    Record::at(memory, at).perform(memory);
}
