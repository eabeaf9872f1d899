//! The addresses of a program.

/// Where a ROM is loaded and begins, in bank 0: the least address of a byte.
pub const FIRST_ADDRESS: u64 = 0x0100;

/// What is behind the last address, and how many bytes a bank has.
pub const MEMORY_END: u64 = 0x1_0000;
