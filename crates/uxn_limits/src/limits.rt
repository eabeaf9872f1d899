//! The limits of what a call reads and holds. Each is the greatest number that is accepted, unless its line says otherwise.

/// Bytes of a source, of an included file, of both together, of a script, of debugger commands and of a setup.
pub const TEXT_LIMIT: usize = 4_194_304;

/// Bytes of a word of a source.
pub const WORD_LIMIT: usize = 255;

/// Words of a source that are expanded, uses of macros included.
pub const VISIT_LIMIT: u32 = 1_000_000;

/// Uses of macros that are open at a word.
pub const MACRO_DEPTH: usize = 32;

/// Files that a source includes.
pub const INCLUDED_FILES: usize = 256;

/// Includes that are open at a word.
pub const INCLUDE_DEPTH: u32 = 15;

/// Bytes of a ROM that is assembled or disassembled: from `0100` to the end of bank 0.
pub const BANK_ROM_LIMIT: usize = 65_280;

/// Bytes of a ROM that runs: from `0100` of bank 0 to the end of bank 15.
pub const LARGEST_ROM: usize = 1_048_320;

/// Bytes of a symbol file.
pub const SYMBOLS_LIMIT: usize = 16_777_216;

/// Events of a script.
pub const MOST_EVENTS: usize = 1_000_000;

/// Times that one line of a script gives its event.
pub const MOST_TIMES: u64 = 1_000_000;

/// Seconds of a script's clock since 1970.
pub const LAST_SECOND: u64 = 253_370_000_000;

/// Minutes that a script's clock is ahead of UTC, or behind it.
pub const LAST_OFFSET: u64 = 840;

/// Commands of the debugger.
pub const MOST_COMMANDS: usize = 65_536;

/// Bytes that one `mem` of the debugger prints.
pub const MOST_PRINTED: u64 = 256;

/// Instructions of one `step` of the debugger.
pub const MOST_STEPS: u64 = 4_294_967_295;

/// Moments that the debugger holds, and of one `back`.
pub const MOST_MOMENTS: usize = 65_536;

/// Bytes of memory that the moments of the debugger hold together.
pub const MOST_HELD: usize = 16_777_216;

/// Machines of a setup, at least.
pub const FEWEST_MACHINES: usize = 2;

/// Machines of a setup.
pub const MOST_MACHINES: usize = 8;

/// Turns of one line of a setup.
pub const TURNS_OF_LINE: u64 = 1_000_000;

/// Turns of a setup.
pub const MOST_TURNS: u32 = 10_000_000;

/// Instructions of a vector.
pub const GREATEST_BUDGET: u64 = 4_294_967_295;

/// Instructions of a vector where no budget is given.
pub const USUAL_BUDGET: u32 = 4_000_000;

/// Routines of the source that `gen` makes.
pub const MOST_ROUTINES: u64 = 8_000;
