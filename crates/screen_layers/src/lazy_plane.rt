//! A layer's pixels, which are kept from the first drawing on.
ghost use Rattle.std.specs.Prelude.{ℕ, ◌≡◌, ◌*◌, ◌<◌, ◌≤◌, All, Bool, IfOk, length, take, drop, replicate};
ghost use Rattle.screen_layers.specs.Drawings.{painted, fill, dot, tile_at, look_of};
ghost use Rattle.screen_layers.specs.Layers.{PaintedOver, row_shown};
ghost use Rattle.screen_layers.specs.Kept.{with_blank};

use crate::Moved;
use crate::plane::Plane;
use crate::size::{Area, Size};
use std::alloc::{AllocError, Global};
use std::marker::Model;
use uxn_memory::Memory;

/// A row of the greatest width.
const BLANK: Size = Size {
    width: 2047,
    height: 1,
};

/// Values 0 to 3 in rows as wide as the screen, which contracts see as a list. It has room for the greatest size.
///
/// Until something is drawn on it all values are 0, and one row of the greatest width is kept for all rows. So the pages
/// of a layer that is not used are not written.
#[derive(Drop)]
pub struct LazyPlane {
    plane: Plane,
    count: usize,
    drawn: bool,
}

impl Model for LazyPlane {
    ghost use Rattle.std.specs.Prelude.{◌≡◌, ℕ, List, false, replicate};
    ghost use Rattle.screen_layers.specs.Kept.{with_blank};

    ghost Value = { List ℕ };

    ghost view = { λ p. with_blank p.drawn p.plane p.count };

    ghost invariant = { λ p. p.drawn ≡ false → p.plane ≡ replicate 2047 0 };
}

impl LazyPlane {
    /// A plane of a size: all values are 0.
    pub fn new(alloc: Global, size: Size) -> Result<LazyPlane, AllocError>
        requires { (size.width ≤ 2047) × (size.height ≤ 2047) }
        ensures { IfOk result (λ plane. plane ≡ replicate (size.height * size.width) 0) }
    {
        Ok(LazyPlane {
            plane: Plane::new(alloc, BLANK)?,
            count: size.start(size.height),
            drawn: false,
        })
    }

    /// Takes a size: all values are 0.
    pub fn clear(&mut self, size: Size)
        requires { (size.width ≤ 2047) × (size.height ≤ 2047) }
        ensures { self.new ≡ replicate (size.height * size.width) 0 }
    {
        self.plane.clear(BLANK);
        self.count = size.start(size.height);
        self.drawn = false;
    }

    /// Fills a rectangle.
    pub fn fill(&mut self, size: Size, area: Area, colour: u8)
        requires plane { length self.old ≡ size.height * size.width }
        requires most { (size.width ≤ 2047) × (size.height ≤ 2047) }
        requires across { area.left ≤ area.right × (area.right ≤ size.width) }
        requires down { area.top ≤ area.bottom × (area.bottom ≤ size.height) }
        requires colour { colour < 4 }
        ensures { PaintedOver self.old self.new size.width size.height (painted (fill area.left area.right area.top area.bottom colour)) }
    {
        keep(&mut self.plane, self.drawn, self.count, size);
        self.drawn = true;
        self.plane.fill(size, area, colour);
    }

    /// Colours the pixel at a place.
    pub fn dot(&mut self, size: Size, x: u16, y: u16, colour: u8)
        requires plane { length self.old ≡ size.height * size.width }
        requires most { (size.width ≤ 2047) × (size.height ≤ 2047) }
        requires place { (x < size.width) × (y < size.height) }
        requires colour { colour < 4 }
        ensures { PaintedOver self.old self.new size.width size.height (painted (dot x y colour)) }
    {
        keep(&mut self.plane, self.drawn, self.count, size);
        self.drawn = true;
        self.plane.dot(size, x, y, colour);
    }

    /// Paints a tile, as far as it lies within the size. Its coordinates wrap, and so do the addresses of its bytes.
    pub fn tile(&mut self, size: Size, memory: &Memory, place: Moved, control: u8)
        requires plane { length self.old ≡ size.height * size.width }
        requires most { (size.width ≤ 2047) × (size.height ≤ 2047) }
        ensures { PaintedOver self.old self.new size.width size.height (painted (tile_at memory.now place (look_of control))) }
    {
        keep(&mut self.plane, self.drawn, self.count, size);
        self.drawn = true;
        self.plane.tile(size, memory, place, control);
    }

    /// A row.
    pub fn row(&self, size: Size, y: u16) -> &[u8]
        requires plane { length self.now ≡ size.height * size.width }
        requires width { size.width ≤ 2047 }
        requires row { y < size.height }
        ensures pixels { result.now ≡ take size.width (drop (y * size.width) self.now) }
        ensures length { length result.now ≡ size.width }
        ensures colours { All (λ colour. colour < 4) result.now }
    {
        if self.drawn {
            self.plane.row(size, y)
        } else {
            &self.plane.row(BLANK, 0)[..usize::from(size.width)]
        }
    }

    /// Puts the values into a row that are shown where the rows of two layers lie over each other.
    pub fn compose(&mut self, size: Size, y: u16, foreground: &LazyPlane, background: &LazyPlane)
        requires plane { length self.old ≡ size.height * size.width }
        requires most { (size.width ≤ 2047) × (size.height ≤ 2047) }
        requires foreground { length foreground.now ≡ size.height * size.width }
        requires background { length background.now ≡ size.height * size.width }
        requires row { y < size.height }
        ensures { PaintedOver self.old self.new size.width size.height (row_shown size.width foreground.now background.now y) }
    {
        keep(&mut self.plane, self.drawn, self.count, size);
        self.drawn = true;
        self.plane
            .compose(size, y, foreground.row(size, y), background.row(size, y));
    }
}

// Keeps all pixels of a plane, if it has kept one row only.
#[inline(always)]
fn keep(plane: &mut Plane, drawn: bool, count: usize, size: Size)
    requires plane { length (with_blank drawn plane.old count) ≡ size.height * size.width }
    requires most { (size.width ≤ 2047) × (size.height ≤ 2047) }
    ensures { plane.new ≡ with_blank drawn plane.old count }
{
    if !drawn {
        plane.clear(size);
    }
}
