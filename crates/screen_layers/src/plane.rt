//! A layer's pixels, and how shapes are painted on them.
ghost use Rattle.std.specs.Prelude.{ℕ, ◌≡◌, ◌+◌, ◌*◌, ◌<◌, ◌≤◌, All, IfOk, length, take, drop, slice_index, replicate};
ghost use Rattle.screen_frame.specs.Colours.{shown};
ghost use Rattle.screen_layers.specs.Drawings.{painted, fill, dot, tile_at, look_of};
ghost use Rattle.screen_layers.specs.Layers.{PaintedOver, values_shown};

use crate::Moved;
use crate::size::{Area, Size};
use crate::tile::Look;
use screen_frame::compose;
use std::alloc::{AllocError, Global};
use std::marker::Model;
use uxn_memory::Memory;

/// How many pixels a layer has at the greatest size.
const PIXELS: usize = 2047 * 2047;

/// How many bytes stand before the pixels. A large allocation begins 16 bytes past a cache line; behind these bytes the
/// pixels begin at one, where the C library fills rows faster.
const LEAD: usize = 48;

/// The most bytes that are filled at once: the C library fills more of them by an instruction that is slow to begin.
const PIECE: usize = 2048;

/// Values 0 to 3 in rows as wide as the screen, which contracts see as a list. It has room for the greatest size.
/// Contracts do not see the bytes of the lead.
#[derive(Drop)]
pub struct Plane {
    pixels: Vec<u8>,
}

impl Model for Plane {
    ghost use Rattle.std.specs.Prelude.{ℕ, List, All, ◌<◌, ◌≤◌, drop, length};
    ghost use Rattle.std.specs.Vec.{vec_capacity};

    ghost Value = { List ℕ };

    ghost view = { λ p. drop 48 p.pixels.items };

    ghost invariant = { λ p. (4190257 ≤ vec_capacity p.pixels) × (48 ≤ length p.pixels.items)
        × All (λ colour. colour < 4) (drop 48 p.pixels.items) };
}

impl Plane {
    /// A plane of a size: all values are 0.
    pub fn new(alloc: Global, size: Size) -> Result<Plane, AllocError>
        requires { (size.width ≤ 2047) × (size.height ≤ 2047) }
        ensures { IfOk result (λ plane. plane ≡ replicate (size.height * size.width) 0) }
    {
        let mut pixels = Vec::with_capacity(alloc, LEAD + PIXELS)?;
        pixels.resize(LEAD, 0)?;
        let mut plane = Plane { pixels };
        plane.clear(size);
        Ok(plane)
    }

    /// Takes a size: all values are 0.
    pub fn clear(&mut self, size: Size)
        requires { (size.width ≤ 2047) × (size.height ≤ 2047) }
        ensures { self.new ≡ replicate (size.height * size.width) 0 }
    {
        self.pixels.clear();
        let _ = self.pixels.resize(LEAD + size.start(size.height), 0);
    }

    /// Fills a rectangle.
    pub fn fill(&mut self, size: Size, area: Area, colour: u8)
        requires plane { length self.old ≡ size.height * size.width }
        requires across { area.left ≤ area.right × (area.right ≤ size.width) }
        requires down { area.top ≤ area.bottom × (area.bottom ≤ size.height) }
        requires colour { colour < 4 }
        ensures { PaintedOver self.old self.new size.width size.height (painted (fill area.left area.right area.top area.bottom colour)) }
    {
        fill_area(&mut self.pixels[LEAD..], size, area, colour);
    }

    /// Colours the pixel at a place.
    pub fn dot(&mut self, size: Size, x: u16, y: u16, colour: u8)
        requires plane { length self.old ≡ size.height * size.width }
        requires place { (x < size.width) × (y < size.height) }
        requires colour { colour < 4 }
        ensures { PaintedOver self.old self.new size.width size.height (painted (dot x y colour)) }
    {
        self.pixels[LEAD + (size.start(y) + usize::from(x))] = colour;
    }

    /// Paints a tile, as far as it lies within the size. Its coordinates wrap, and so do the addresses of its bytes.
    pub fn tile(&mut self, size: Size, memory: &Memory, place: Moved, control: u8)
        requires plane { length self.old ≡ size.height * size.width }
        requires size { size.width ≤ 2047 }
        ensures { PaintedOver self.old self.new size.width size.height (painted (tile_at memory.now place (look_of control))) }
    {
        paint_tile(&mut self.pixels[LEAD..], size, memory, place, control);
    }

    /// A row.
    pub fn row(&self, size: Size, y: u16) -> &[u8]
        requires plane { length self.now ≡ size.height * size.width }
        requires row { y < size.height }
        ensures pixels { result.now ≡ take size.width (drop (y * size.width) self.now) }
        ensures length { length result.now ≡ size.width }
        ensures colours { All (λ colour. colour < 4) result.now }
    {
        let start = LEAD + size.start(y);
        &self.pixels[start..start + usize::from(size.width)]
    }

    /// Puts the values into a row that are shown where two rows lie over each other.
    pub fn compose(&mut self, size: Size, y: u16, foreground: &[u8], background: &[u8])
        requires plane { length self.old ≡ size.height * size.width }
        requires foreground { length foreground.now ≡ size.width }
        requires background { length background.now ≡ size.width }
        requires front { All (λ colour. colour < 4) foreground.now }
        requires back { All (λ colour. colour < 4) background.now }
        requires row { y < size.height }
        ensures { PaintedOver self.old self.new size.width size.height (values_shown foreground.now background.now y) }
    {
        let from = LEAD + size.start(y);
        let to = from + usize::from(size.width);
        compose_row(foreground, background, &mut self.pixels[from..to]);
    }
}

/// The values that are shown where two rows lie over each other.
pub fn compose_row(foreground: &[u8], background: &[u8], into: &mut [u8])
    requires foreground { length foreground.now ≡ length into.old }
    requires background { length background.now ≡ length into.old }
    ensures count { length into.new ≡ length foreground.now }
    ensures values { (k : ℕ) → k < length foreground.now
        → slice_index into.new k ≡ shown (slice_index foreground.now k) (slice_index background.now k) }
    ensures colours { All (λ colour. colour < 4) foreground.now → All (λ colour. colour < 4) background.now → All (λ colour. colour < 4) into.new }
{
    for i in 0..into.len() {
        into[i] = compose(foreground[i], background[i]);
    }
}

// Makes all pixels of a span one colour, a piece at a time.
fn fill_span(span: &mut [u8], colour: u8)
    ensures { span.new ≡ replicate (length span.old) colour }
{
    let mut from = 0;
    while span.len() - from > PIECE {
        fill_piece(&mut span[from..from + PIECE], colour);
        from += PIECE;
    }
    fill_piece(&mut span[from..], colour);
}

// Not inlined, so that the pieces stay pieces; a loop, since `fill` puts the last one by itself.
#[inline(never)]
fn fill_piece(piece: &mut [u8], colour: u8)
    ensures { piece.new ≡ replicate (length piece.old) colour }
{
    for i in 0..piece.len() {
        piece[i] = colour;
    }
}

// Fills a rectangle: a span of each row, or whole rows together.
fn fill_area(pixels: &mut [u8], size: Size, area: Area, colour: u8)
    requires plane { length pixels.old ≡ size.height * size.width }
    requires across { area.left ≤ area.right × (area.right ≤ size.width) }
    requires down { area.top ≤ area.bottom × (area.bottom ≤ size.height) }
    ensures painted { PaintedOver pixels.old pixels.new size.width size.height (painted (fill area.left area.right area.top area.bottom colour)) }
    ensures colours { colour < 4 → All (λ colour. colour < 4) pixels.old → All (λ colour. colour < 4) pixels.new }
{
    if area.left == 0 && area.right == size.width {
        let (start, end) = (size.start(area.top), size.start(area.bottom));
        fill_span(&mut pixels[start..end], colour);
        return;
    }
    for y in area.top..area.bottom {
        let start = size.start(y);
        fill_piece(
            &mut pixels[start + usize::from(area.left)..start + usize::from(area.right)],
            colour,
        );
    }
}

// Paints a tile, as far as it lies on the screen.
fn paint_tile(pixels: &mut [u8], size: Size, memory: &Memory, place: Moved, control: u8)
    requires plane { length pixels.old ≡ size.height * size.width }
    requires size { size.width ≤ 2047 }
    ensures painted { PaintedOver pixels.old pixels.new size.width size.height (painted (tile_at memory.now place (look_of control))) }
    ensures colours { All (λ colour. colour < 4) pixels.old → All (λ colour. colour < 4) pixels.new }
{
    let look = Look::of(control);
    for row in 0..8 {
        let y = place.y.wrapping_add(row);
        if y < size.height {
            let bytes = look.row_bytes(memory, place.addr, row);
            let start = size.start(y);
            let end = start + usize::from(size.width);
            look.paint_row(bytes, place.x, &mut pixels[start..end]);
        }
    }
}
