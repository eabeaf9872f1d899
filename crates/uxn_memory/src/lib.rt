//! The memory of the machine: sixteen banks of 65,536 bytes, whose addresses wrap. Instructions and devices address bank 0.
#![tactic(auto)]

ghost use Rattle.std.specs.Prelude.{
  ℕ,
  false,
  if◌then◌else◌,
  ◌≡◌,
  ◌+◌,
  ◌*◌,
  ◌/◌,
  ◌%◌,
  ◌<◌,
  ◌≤◌,
  ◌++◌,
  length,
  take,
  drop,
  vec_len,
  vec_capacity,
  IfOk,
  slice_index,
  slice_set,
  EachIndex,
};
ghost use Rattle.uxn_limits.specs.declared.addresses.TheConstants.{FIRST_ADDRESS};
ghost use Rattle.uxn_memory.specs.Banks.{Bank0Law};
ghost use Rattle.uxn_memory.specs.Bytes.{
  memory_size,
  largest_rom,
  zeros,
  all_bytes,
  BytesAreMaintained,
  bank0,
  bank_place,
  in_run,
  short_at,
  with_short,
  with_bytes,
  copied,
  filled,
  copied_up,
  copied_down,
};

use std::alloc::{AllocError, Global};
use std::marker::Model;
use uxn_limits::addresses;
pub use uxn_limits::limits::LARGEST_ROM;

/// How many banks a memory has.
pub const BANKS: u8 = 16;

/// How many bytes a bank has.
pub const BANK_SIZE: usize = addresses::MEMORY_END as usize;

/// How many bytes all banks have together.
pub const SIZE: usize = 1_048_576;

/// Where a program is loaded and begins, in bank 0.
pub const START: u16 = addresses::FIRST_ADDRESS as u16;

/// The bytes of all banks, which contracts see as one list.
///
/// The first bytes of the list are kept, at least bank 0, and those behind them are 0. So the pages of a bank are not
/// written before a byte of it is.
#[derive(Drop)]
pub struct Memory {
    bytes: Vec<u8>,
}

impl Model for Memory {
    ghost use Rattle.std.specs.Prelude.{ℕ, List, vec_len, vec_capacity};
    ghost use Rattle.uxn_memory.specs.Bytes.{all_bytes, BytesAreMaintained};

    ghost Value = { List ℕ };

    ghost view = { λ m. all_bytes m.bytes.items };

    ghost invariant = { λ m. BytesAreMaintained (vec_len m.bytes) (vec_capacity m.bytes) };
}

impl Memory {
    /// A memory whose bytes are all 0. This is the one call of this crate that takes memory.
    #[tactic(auto, using(crate::proofs::Kept::kept))]
    pub fn new(alloc: Global) -> Result<Memory, AllocError>
        ensures { IfOk result (λ memory. memory ≡ zeros memory_size) }
    {
        let mut bytes = Vec::with_capacity(alloc, SIZE)?;
        reach(&mut bytes, BANK_SIZE);
        Ok(Memory { bytes })
    }

    /// Tells contracts what holds of every memory.
    #[tactic(auto, using(crate::proofs::Kept::kept))]
    pub fn known(&self)
        ensures size { length self.now ≡ memory_size }
        ensures bytes { EachIndex self.now (λ k. slice_index self.now k < 256) }
    {
        bytes_fit(&self.bytes);
    }

    /// The byte at an address.
    #[tactic(auto, using(crate::proofs::Kept::kept))]
    pub fn get(&self, at: u16) -> u8
        ensures { result ≡ slice_index self.now at }
    {
        self.bytes[usize::from(at)]
    }

    /// Stores a byte at an address.
    #[tactic(auto, using(crate::proofs::Kept::kept))]
    pub fn set(&mut self, at: u16, value: u8)
        ensures { self.new ≡ slice_set self.old at value }
    {
        self.bytes[usize::from(at)] = value;
    }

    /// The short at an address: high byte there, low byte at the next address modulo 65536.
    pub fn get2(&self, at: u16) -> u16
        ensures { result ≡ short_at 65536 self.now at }
    {
        u16::from(self.get(at)) * 256 + u16::from(self.get(at.wrapping_add(1)))
    }

    /// Stores a short: high byte at the address, low byte at the next one modulo 65536.
    pub fn set2(&mut self, at: u16, value: u16)
        ensures { self.new ≡ with_short 65536 self.old at value }
    {
        self.set(at, (value / 256) as u8);
        self.set(at.wrapping_add(1), (value % 256) as u8);
    }

    /// The short at a place of the zero page: low byte at the next place modulo 256.
    pub fn zero2(&self, at: u8) -> u16
        ensures { result ≡ short_at 256 self.now at }
    {
        u16::from(self.get(u16::from(at))) * 256
            + u16::from(self.get(u16::from(at.wrapping_add(1))))
    }

    /// Stores a short in the zero page: low byte at the next place modulo 256.
    pub fn set_zero2(&mut self, at: u8, value: u16)
        ensures { self.new ≡ with_short 256 self.old at value }
    {
        self.set(u16::from(at), (value / 256) as u8);
        self.set(u16::from(at.wrapping_add(1)), (value % 256) as u8);
    }

    /// Puts a program of at most `LARGEST_ROM` bytes from `0100` of bank 0 on; from the end of a bank it goes on at `0000` of
    /// the next.
    #[tactic(auto, using(crate::proofs::Kept::kept))]
    pub fn load(&mut self, rom: &[u8])
        requires { length rom.now ≤ largest_rom }
        ensures { self.new ≡ with_bytes self.old FIRST_ADDRESS rom.now }
    {
        reach(&mut self.bytes, usize::from(START) + rom.len());
        put_bytes(&mut self.bytes, usize::from(START), rom);
    }

    /// Puts bytes from an address on; they end at `ffff` or before.
    #[tactic(auto, using(crate::proofs::Kept::kept))]
    pub fn put(&mut self, at: u16, bytes: &[u8])
        requires { at + length bytes.now ≤ 65536 }
        ensures { self.new ≡ with_bytes self.old at bytes.now }
    {
        put_bytes(&mut self.bytes, usize::from(at), bytes);
    }

    /// The bytes of bank 0 from an address on, at most `length` of them and none past `ffff`.
    #[tactic(auto, using(crate::proofs::Kept::kept))]
    pub fn slice(&self, at: u16, length: u16) -> &[u8]
        ensures { result.now ≡ take length (drop at (bank0 self.now)) }
    {
        let from = usize::from(at);
        let to = BANK_SIZE.min(from + usize::from(length));
        &self.bytes[from..to]
    }

    /// The byte at an address of a bank below 16.
    #[tactic(auto, using(crate::proofs::Kept::kept))]
    pub fn bank_byte(&self, bank: u8, at: u16) -> u8
        requires { bank < 16 }
        ensures { result ≡ slice_index self.now (bank_place bank at) }
    {
        let place = bank_place(bank, at);
        if place < self.bytes.len() {
            self.bytes[place]
        } else {
            0
        }
    }

    /// Stores a byte at an address of a bank below 16.
    #[tactic(auto, using(crate::proofs::Kept::kept))]
    fn set_bank_byte(&mut self, bank: u8, at: u16, value: u8)
        requires { bank < 16 }
        ensures { self.new ≡ slice_set self.old (bank_place bank at) value }
    {
        reach(&mut self.bytes, bank_place(bank, 0xffff) + 1);
        self.bytes[bank_place(bank, at)] = value;
    }

    /// Puts the byte at an address of one bank below 16 at an address of another.
    fn copy_byte(&mut self, from_bank: u8, from: u16, to_bank: u8, to: u16)
        requires from { from_bank < 16 }
        requires to { to_bank < 16 }
        ensures { self.new ≡ copied self.old from_bank from to_bank to }
    {
        let byte = self.bank_byte(from_bank, from);
        self.set_bank_byte(to_bank, to, byte);
    }

    /// Sets `length` bytes from an address of a bank below 16 on to a value. Addresses wrap within the bank.
    #[tactic(auto, using(crate::proofs::Runs::runs))]
    pub fn fill(&mut self, length: u16, bank: u8, at: u16, value: u8)
        requires { bank < 16 }
        ensures run { self.new ≡ filled self.old length bank at value }
        ensures each { (k : ℕ) → k < memory_size → slice_index self.new k
            ≡ (if in_run bank at length k then value else slice_index self.old k) }
    {
        self.known();
        for i in 0..length {
            self.set_bank_byte(bank, at.wrapping_add(i), value);
        }
    }

    /// Copies `length` bytes from one bank below 16 to another one after the other, the lowest address first. Addresses wrap
    /// within their bank.
    #[tactic(auto, using(crate::proofs::Runs::runs))]
    pub fn copy_up(&mut self, length: u16, from_bank: u8, from: u16, to_bank: u8, to: u16)
        requires from { from_bank < 16 }
        requires to { to_bank < 16 }
        ensures run { self.new ≡ copied_up self.old length from_bank from to_bank to }
        ensures others { (k : ℕ) → in_run to_bank to length k ≡ false → slice_index self.new k ≡ slice_index self.old k }
    {
        for i in 0..length {
            self.copy_byte(from_bank, from.wrapping_add(i), to_bank, to.wrapping_add(i));
        }
    }

    /// Copies `length` bytes from one bank below 16 to another one after the other, the highest address first. Addresses wrap
    /// within their bank.
    #[tactic(auto, using(crate::proofs::Runs::runs))]
    pub fn copy_down(&mut self, length: u16, from_bank: u8, from: u16, to_bank: u8, to: u16)
        requires from { from_bank < 16 }
        requires to { to_bank < 16 }
        ensures run { self.new ≡ copied_down self.old length from_bank from to_bank to }
        ensures others { (k : ℕ) → in_run to_bank to length k ≡ false → slice_index self.new k ≡ slice_index self.old k }
    {
        for i in (0..length).rev() {
            self.copy_byte(from_bank, from.wrapping_add(i), to_bank, to.wrapping_add(i));
        }
    }
}

/// What a change does to bank 0: one of its own bytes changes it as a memory of its own, and one of another bank not at all.
pub fn bank0_changes()
    ensures { Bank0Law }
{}

/// Where the byte at an address of a bank stands among all bytes.
fn bank_place(bank: u8, at: u16) -> usize
    ensures { result ≡ bank_place bank at }
{
    usize::from(bank) * BANK_SIZE + usize::from(at)
}

/// Keeps at least so many bytes: those that are kept more are 0. There is room for them, and so it takes no memory.
#[tactic(auto, using(crate::proofs::Kept::kept))]
fn reach(bytes: &mut Vec<u8>, count: usize)
    requires count { count ≤ memory_size }
    requires within { vec_len bytes.old ≤ memory_size }
    requires room { memory_size ≤ vec_capacity bytes.old }
    ensures same { all_bytes bytes.new.items ≡ all_bytes bytes.old.items }
    ensures reached { count ≤ vec_len bytes.new }
    ensures grown { vec_len bytes.old ≤ vec_len bytes.new }
    ensures within { vec_len bytes.new ≤ memory_size }
    ensures room { memory_size ≤ vec_capacity bytes.new }
{
    if bytes.len() < count {
        bytes.resize(count, 0).unwrap();
    }
}

fn put_bytes(memory: &mut Vec<u8>, at: usize, bytes: &[u8])
    requires { at + length bytes.now ≤ vec_len memory.old }
    ensures items { memory.new.items ≡ with_bytes memory.old.items at bytes.now }
    ensures size { vec_len memory.new ≡ vec_len memory.old }
    ensures room { vec_capacity memory.new ≡ vec_capacity memory.old }
{
    memory[at..at + bytes.len()].copy_from_slice(bytes);
}

// Each element of a slice of bytes is below 256.
fn bytes_fit(bytes: &[u8])
    ensures { EachIndex bytes.now (λ k. slice_index bytes.now k < 256) }
{}
