//! What going back gives, against a second run that stops there.

use std::alloc::{AllocError, Global};
use uxn_io::{MemSink, MemTree};
use uxn_opcodes::{Core, step};
use uxn_undo::Undo;
use varvara_bus::{Bus, Clock, Devices};

/// A program, and how many instructions of it are run.
type Run = (&'static [u8], u32);

/// Stores in the zero page round its end, at a distance and at an address; a fill that wraps; a copy out of bank 1.
static RUNS: [Run; 4] = [
    (
        &[
            0xa0, 0x12, 0x34, 0x80, 0xff, 0x31, 0x80, 0x56, 0x80, 0x10, 0x13, 0xa0, 0x78, 0x9a,
            0xa0, 0xff, 0xff, 0x35,
        ],
        8,
    ),
    (
        &[
            0xa0, 0x01, 0x08, 0x80, 0x02, 0x37, 0x01, 0x00, 0x00, 0x00, 0x04, 0x00, 0x00, 0xff,
            0xfe, 0xaa,
        ],
        4,
    ),
    (
        &[
            0xa0, 0x01, 0x07, 0x80, 0x02, 0x37, 0x01, 0x01, 0x00, 0x03, 0x00, 0x01, 0x00, 0x00,
            0x00, 0x00, 0x00, 0x10,
        ],
        4,
    ),
    (
        &[
            0x80, 0x41, 0x80, 0x18, 0x17, 0x80, 0x05, 0x80, 0x04, 0x17, 0x01,
        ],
        7,
    ),
];

// Runs so many instructions, and keeps the moment before each. False where one stops.
fn stepped(
    core: &mut Core,
    undo: &mut Undo,
    count: u32,
    bus: &mut Bus<'_, MemTree, MemSink, MemSink>,
) -> bool {
    for _ in 0..count {
        undo.keep(core, bus);
        if step(core, bus).is_err() {
            return false;
        }
    }
    true
}

// The same over devices and a tree, with room for 100 bytes on the output. False also when out of memory.
fn ran_over(
    alloc: Global,
    core: &mut Core,
    undo: &mut Undo,
    count: u32,
    (devices, tree): (&mut Devices, &mut MemTree),
) -> bool {
    let Ok(mut out) = MemSink::new(alloc, 100, &[]) else {
        return false;
    };
    let Ok(mut err) = MemSink::new(alloc, 0, &[]) else {
        return false;
    };
    let mut bus = Bus::new(devices, tree, &mut out, &mut err);
    stepped(core, undo, count, &mut bus)
}

// The same over new devices and a tree with nothing in it.
fn ran(alloc: Global, core: &mut Core, undo: &mut Undo, count: u32) -> bool {
    let clock = Clock {
        seconds: 0,
        offset: 0,
    };
    let Ok(mut tree) = MemTree::new(alloc, &[], 0, 0, &[]) else {
        return false;
    };
    let Ok(mut devices) = Devices::new(alloc, None, clock) else {
        return false;
    };
    ran_over(alloc, core, undo, count, (&mut devices, &mut tree))
}

// Whether going back gives what another machine holds that was not run as far.
fn gives(undo: &Undo, core: &Core, back: u32, earlier: &Core) -> bool {
    if back == 0 || back > undo.held() {
        return false;
    }
    let (working, returns) = (undo.working(back), undo.returns(back));
    for at in 0..=0xffff {
        if undo.byte(core, back, at) != earlier.memory.get(at) {
            return false;
        }
    }
    undo.address(back) == earlier.at
        && working.pointer() == earlier.working.pointer()
        && working.peek2(0) == earlier.working.peek2(0)
        && returns.pointer() == earlier.returns.pointer()
}

// Whether going back so many moments in a run gives what a second run has there.
fn agrees(alloc: Global, run: &Run, back: u32) -> Result<bool, AllocError> {
    let (rom, count) = *run;
    if rom.len() > 100 || back > count {
        return Ok(false);
    }
    let mut undo = Undo::new(alloc)?;
    let mut core = Core::new(alloc, rom)?;
    if !ran(alloc, &mut core, &mut undo, count) || undo.held() != count {
        return Ok(false);
    }
    let mut other = Undo::new(alloc)?;
    let mut earlier = Core::new(alloc, rom)?;
    Ok(ran(alloc, &mut earlier, &mut other, count - back) && gives(&undo, &core, back, &earlier))
}

#[test]
fn going_back_gives_what_a_second_run_has_there(rt: HostRuntime) -> Result<(), AllocError> {
    for run in &RUNS {
        for back in 1..=run.1 {
            assert!(rt; agrees(rt.alloc(), run, back)?, "{} back", back);
        }
    }
    Ok(())
}
