//! Which rows of a screen are marked and composed. What is drawn is shown by command-line cases.

use screen_layers::Screen;
use std::alloc::{AllocError, Global};
use std::process::Abort;
use uxn_memory::Memory;

/// What is asked of a screen, with the answer.
enum Call {
    Resize(u16, u16, bool),
    /// A pixel at x and y, with auto and control.
    Pixel(u16, u16, u8, u8),
    /// A sprite at x and y of the bytes at an address, with auto and control.
    Sprite(u16, u16, u16, u8, u8),
    /// How many rows were marked.
    Refresh(u16),
    /// A row that is marked.
    Marked(u16),
    /// A row that is not marked: its first values, and the one that all others have.
    Composed(u16, &'static [u8], u8),
}

/// Says whether a row is kept composed so.
fn keeps(screen: &Screen, y: u16, first: &[u8], other: u8) -> bool {
    if y >= screen.height() || screen.is_marked(y) {
        return false;
    }
    let values = screen.composed(y);
    let mut same = values.len() == usize::from(screen.width());
    for (x, value) in values.iter().enumerate() {
        let want = if x < first.len() { first[x] } else { other };
        same = same && *value == want;
    }
    same
}

/// Says whether a screen answers a call so; what is drawn has no answer.
fn answers(screen: &mut Screen, memory: &Memory, call: &Call) -> bool {
    match call {
        Call::Resize(width, height, answer) => screen.resize(*width, *height) == *answer,
        Call::Pixel(x, y, auto, control) => {
            let _ = screen.pixel(*x, *y, *auto, *control);
            true
        }
        Call::Sprite(x, y, addr, auto, control) => {
            let _ = screen.sprite(memory, *x, *y, *addr, *auto, *control);
            true
        }
        Call::Refresh(count) => screen.refresh() == *count,
        Call::Marked(y) => *y < screen.height() && screen.is_marked(*y),
        Call::Composed(y, first, other) => keeps(screen, *y, first, *other),
    }
}

/// Makes a memory with these bytes, and a screen, and then makes calls of the screen, one after the other.
fn ask(
    rt: &impl Abort,
    alloc: Global,
    bytes: &[(u16, u8)],
    calls: &[Call],
) -> Result<(), AllocError> {
    let mut memory = Memory::new(alloc)?;
    for (at, byte) in bytes {
        memory.set(*at, *byte);
    }
    let mut screen = Screen::new(alloc)?;
    for (at, call) in calls.iter().enumerate() {
        assert!(rt; answers(&mut screen, &memory, call), "at call {at}");
    }
    Ok(())
}

/// Pixels, fills and sizes, and the rows that they mark.
static DRAWN: [Call; 23] = [
    Call::Composed(0, &[], 0),
    Call::Refresh(0),
    Call::Pixel(0xffff, 0, 0x03, 0x01),
    Call::Refresh(0),
    Call::Pixel(2, 1, 0x00, 0xc1),
    Call::Composed(0, &[], 0),
    Call::Marked(1),
    Call::Refresh(319),
    Call::Refresh(0),
    Call::Composed(0, &[], 0),
    Call::Composed(1, &[0, 0], 1),
    Call::Pixel(1, 1, 0x00, 0x03),
    Call::Marked(1),
    Call::Composed(2, &[0, 0], 1),
    Call::Refresh(1),
    Call::Composed(1, &[0, 3], 1),
    Call::Pixel(512, 0, 0x00, 0x82),
    Call::Refresh(0),
    Call::Pixel(0, 0, 0x00, 0x40),
    Call::Resize(7, 8, false),
    Call::Resize(8, 8, true),
    Call::Refresh(0),
    Call::Composed(1, &[], 0),
];

#[test]
fn rows_are_marked_and_composed(rt: HostRuntime) -> Result<(), AllocError> {
    ask(&rt, rt.alloc(), &[], &DRAWN)
}

/// A sprite of four tiles across the left side of a screen and the end of the memory.
static TILED: [Call; 5] = [
    Call::Sprite(0xfffc, 0x0000, 0xfff8, 0x35, 0x91),
    Call::Refresh(32),
    Call::Refresh(0),
    Call::Composed(0, &[3, 3, 1, 1], 0),
    Call::Composed(31, &[], 0),
];

#[test]
fn tiles_mark_the_rows_that_they_cover(rt: HostRuntime) -> Result<(), AllocError> {
    ask(&rt, rt.alloc(), &[(0xfff8, 0xf0), (0x0000, 0x30)], &TILED)
}
