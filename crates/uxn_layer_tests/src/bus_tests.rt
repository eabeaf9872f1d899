//! What an instruction leaves as it was: the marks of a screen, and the memory and the success where a tree fails.

use std::alloc::{AllocError, Global};
use uxn_io::{MemSink, MemTree, Path, TreeCall};
use uxn_opcodes::{Core, step};
use varvara_bus::{Bus, Clock, Devices};

/// A program; how many of its instructions end, and whether the next one does; and what is there then: how many rows are
/// marked, the byte at 0000, and the success of the first file.
struct Run {
    rom: &'static [u8],
    count: u32,
    ends: bool,
    marked: u16,
    byte: u8,
    success: u16,
}

/// `#01 .Screen/pixel DEO`; and 55 at 0000, 1234 as the success, and 5 bytes of the file `a` to be read at 0000.
static RUNS: [Run; 2] = [
    Run {
        rom: &[0x80, 0x01, 0x80, 0x2e, 0x17],
        count: 2,
        ends: true,
        marked: 1,
        byte: 0,
        success: 0,
    },
    Run {
        rom: &[
            0x80, 0x55, 0x80, 0x00, 0x11, 0xa0, 0x01, 0x1e, 0x80, 0xa8, 0x37, 0xa0, 0x12, 0x34,
            0x80, 0xa2, 0x37, 0xa0, 0x00, 0x05, 0x80, 0xaa, 0x37, 0xa0, 0x00, 0x00, 0x80, 0xac,
            0x37, 0x00, 0x61, 0x00,
        ],
        count: 14,
        ends: false,
        marked: 0,
        byte: 0x55,
        success: 0x1234,
    },
];

/// Whether a run comes to what is wanted.
fn comes_to(core: &mut Core, run: &Run, bus: &mut Bus<'_, MemTree, MemSink, MemSink>) -> bool {
    for _ in 0..run.count {
        if step(core, bus).is_err() {
            return false;
        }
    }
    step(core, bus).is_ok() == run.ends
        && bus.refresh() == run.marked
        && core.memory.get(0) == run.byte
        && bus.stored_short(0xa2) == run.success
}

/// The same over devices and a tree.
fn comes_to_over(
    alloc: Global,
    core: &mut Core,
    run: &Run,
    devices: &mut Devices,
    tree: &mut MemTree,
) -> bool {
    let Ok(mut out) = MemSink::new(alloc, 0, &[]) else {
        return false;
    };
    let Ok(mut err) = MemSink::new(alloc, 0, &[]) else {
        return false;
    };
    let mut bus = Bus::new(devices, tree, &mut out, &mut err);
    comes_to(core, run, &mut bus)
}

/// The same over new devices and an empty tree that fails.
fn leaves_all_else(alloc: Global, run: &Run) -> Result<bool, AllocError> {
    if run.rom.len() > 100 {
        return Ok(false);
    }
    let clock = Clock {
        seconds: 0,
        offset: 0,
    };
    let fails = [(TreeCall::Kind, 0), (TreeCall::Read, 0)];
    let mut tree = MemTree::new(alloc, &[], 0, 0, &fails)?;
    let mut devices = Devices::new(alloc, Path::read(b"r").ok(), clock)?;
    let mut core = Core::new(alloc, run.rom)?;
    Ok(comes_to_over(alloc, &mut core, run, &mut devices, &mut tree))
}

#[test]
fn what_an_instruction_does_not_do_is_as_it_was(rt: HostRuntime) -> Result<(), AllocError> {
    for run in &RUNS {
        assert!(rt; leaves_all_else(rt.alloc(), run)?);
    }
    Ok(())
}
