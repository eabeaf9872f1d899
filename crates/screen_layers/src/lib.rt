//! The screen: two layers of pixels, drawn by the ports pixel and sprite.
#![tactic(auto)]

ghost use Rattle.std.specs.Prelude.{ℕ, ◌≡◌, ◌==◌, ◌+◌, ◌*◌, ◌/◌, ◌%◌, ◌<◌, ◌≤◌, true, false, nat_le, nat_lt, ◌&&◌};
ghost use Rattle.std.specs.Prelude.{if◌then◌else◌, List, [], ◌∷◌, ◌++◌, IfOk, All, length, take, drop, slice_index};
ghost use Rattle.screen_layers.specs.Control.{layer_of};
ghost use Rattle.screen_layers.specs.Drawings.{Drawing, filled_span, filled, dotted, moved_by_pixel, moved_by_sprite};
ghost use Rattle.screen_layers.specs.Drawings.{tile_at, look_of, tile_step, place_after};
ghost use Rattle.screen_layers.specs.Layers.{mark_at};
ghost use Rattle.screen_layers.specs.Pictures.{Picture, new_picture, after_pixel, after_sprite};
ghost use Rattle.screen_layers.specs.Pictures.{can_resize, resized, is_marked, values_of, picture_row_of};

mod control;
mod lazy_plane;
mod marks;
mod plane;
mod size;
mod tile;

use control::{Layer, auto_step, has_bit, layer_of, side_step};
use lazy_plane::LazyPlane;
use marks::Marks;
use plane::compose_row;
use screen_frame::{CHANNELS, Palette, ppm_row};
use size::{Area, Size};
use std::alloc::{AllocError, Global};
use std::marker::Model;
use tile::tile_size;
use uxn_memory::Memory;

/// The least width and height of a screen.
const LEAST: u16 = 8;

/// The greatest width and height of a screen.
const GREATEST: u16 = 2047;

/// Where a tile of a sprite stands, and the address of its bytes; where a sprite leaves these.
#[derive(Clone, Copy)]
pub struct Moved {
    pub x: u16,
    pub y: u16,
    pub addr: u16,
}

impl Moved {
    // The place so many steps on. Coordinates and addresses wrap.
    fn place_after(self, step: Moved, count: u16) -> Moved
        ensures { result ≡ place_after self step count }
    {
        Moved {
            x: self.x.wrapping_add(count.wrapping_mul(step.x)),
            y: self.y.wrapping_add(count.wrapping_mul(step.y)),
            addr: self.addr.wrapping_add(count.wrapping_mul(step.addr)),
        }
    }
}

/// A screen of two layers, 8 to 2047 pixels each way, which keeps what is shown of each row that is not marked. Contracts
/// see its size, its layers' pixels, the composed values and the marks, and say which pictures these represent.
#[derive(Drop)]
pub struct Screen {
    size: Size,
    background: LazyPlane,
    foreground: LazyPlane,
    composed: LazyPlane,
    marks: Marks,
}

impl Model for Screen {
    ghost use Rattle.std.specs.Prelude.{◌≤◌};
    ghost use Rattle.screen_layers.specs.Layers.{Layers, LayersAreMaintained};

    ghost Value = { Layers };

    ghost view = { λ s. record {
      width = s.size.width;
      height = s.size.height;
      background = s.background;
      foreground = s.foreground;
      composed = s.composed;
      marks = s.marks;
    } };

    ghost invariant = { λ s. (s.size.width ≤ 2047) × (s.size.height ≤ 2047) × LayersAreMaintained (record {
      width = s.size.width;
      height = s.size.height;
      background = s.background;
      foreground = s.foreground;
      composed = s.composed;
      marks = s.marks;
    }) };
}

impl Screen {
    ghost use Rattle.screen_layers.specs.Layers.{RepresentsPicture, SamePixels, Refreshes, Draws};

    /// A screen of 512 by 320 pixels, both layers 0, no row marked. It takes the memory of both layers and of the composed
    /// values at the greatest size; no other call takes any.
    pub fn new(alloc: Global) -> Result<Screen, AllocError>
        ensures picture { IfOk result (λ screen. RepresentsPicture screen new_picture) }
    {
        let size = first_size();
        Ok(Screen {
            size,
            background: LazyPlane::new(alloc, size)?,
            foreground: LazyPlane::new(alloc, size)?,
            composed: LazyPlane::new(alloc, size)?,
            marks: Marks::new(alloc)?,
        })
    }

    /// The width in pixels.
    pub fn width(&self) -> u16
        ensures { result ≡ self.now.width }
    {
        self.size.width
    }

    /// The height in pixels.
    pub fn height(&self) -> u16
        ensures { result ≡ self.now.height }
    {
        self.size.height
    }

    /// Does a write to the port pixel, and gives the next x and y. It colours the pixel at x and y, or fills.
    pub fn pixel(&mut self, x: u16, y: u16, auto: u8, control: u8) -> (u16, u16)
        ensures drawn { (picture : Picture) → RepresentsPicture self.old picture → RepresentsPicture self.new (after_pixel picture x y control) }
        ensures moved { result ≡ moved_by_pixel x y auto control }
    {
        if has_bit(control, 0x80) {
            self.fill(x, y, control);
            (x, y)
        } else {
            self.dot(x, y, control);
            (
                x.wrapping_add(u16::from(has_bit(auto, 0x01))),
                y.wrapping_add(u16::from(has_bit(auto, 0x02))),
            )
        }
    }

    /// Does a write to the port sprite, and gives the next x, y and address. It draws one tile, and as many more as the
    /// high nibble of auto says.
    pub fn sprite(
        &mut self,
        memory: &Memory,
        x: u16,
        y: u16,
        addr: u16,
        auto: u8,
        control: u8,
    ) -> Moved
        ensures drawn { (picture : Picture) → RepresentsPicture self.old picture → RepresentsPicture self.new
            (after_sprite picture memory.now x y addr auto control) }
        ensures moved { result ≡ moved_by_sprite x y addr auto control }
    {
        let first = Moved { x, y, addr };
        let step = tile_step(auto, control);
        let count = u16::from(auto / 16) + 1;
        for i in 0..count {
            self.tile(memory, first.place_after(step, i), control);
        }
        Moved {
            x: x.wrapping_add(auto_step(auto, 0x01, side_step(has_bit(control, 0x10)))),
            y: y.wrapping_add(auto_step(auto, 0x02, side_step(has_bit(control, 0x20)))),
            addr: first.place_after(step, count).addr,
        }
    }

    /// Asks for a size. True where each way lies in 8 to 2047 and one differs from the present size: the screen then
    /// has that size, both layers are 0, and no row is marked. False changes nothing.
    pub fn resize(&mut self, width: u16, height: u16) -> bool
        ensures answer { result ≡ can_resize self.old.width self.old.height width height }
        ensures picture { (picture : Picture) → RepresentsPicture self.old picture → RepresentsPicture self.new (resized picture width height) }
        ensures refused { result ≡ false → self.new ≡ self.old }
    {
        if !self.can_resize(width, height) {
            return false;
        }
        let size = Size { width, height };
        self.size = size;
        self.background.clear(size);
        self.foreground.clear(size);
        self.composed.clear(size);
        self.marks.clear();
        true
    }

    // Whether each way lies in 8 to 2047 and one differs from the present size.
    fn can_resize(&self, width: u16, height: u16) -> bool
        ensures { result ≡ can_resize self.now.width self.now.height width height }
    {
        is_size(width)
            && is_size(height)
            && !(width == self.size.width && height == self.size.height)
    }

    /// Composes each marked row, takes its mark away, and gives the number of these rows.
    pub fn refresh(&mut self) -> u16
        ensures { Refreshes self.old self.new result }
    {
        let mut count = 0;
        for y in 0..self.size.height {
            if self.is_marked(y) {
                self.compose(y);
                count += 1;
            }
        }
        count
    }

    /// Whether a row is marked: whether a drawing since the last refresh, or since a later resize, covers a place of it,
    /// opaque there or not.
    pub fn is_marked(&self, y: u16) -> bool
        requires { y < self.now.height }
        ensures held { result ≡ mark_at self.now.marks y }
        ensures exact { (picture : Picture) → RepresentsPicture self.now picture → result ≡ is_marked picture y }
    {
        self.marks.get(y)
    }

    /// What is shown of a row that is not marked, as it is kept: a value of 0 to 3 for each pixel.
    pub fn composed(&self, y: u16) -> &[u8]
        requires row { y < self.now.height }
        requires composed { mark_at self.now.marks y ≡ false }
        ensures held { result.now ≡ take self.now.width (drop (y * self.now.width) self.now.composed) }
        ensures values { (picture : Picture) → RepresentsPicture self.now picture → result.now ≡ values_of picture y }
        ensures colours { All (λ value. value < 4) result.now }
    {
        self.composed.row(self.size, y)
    }

    /// Puts a row of the picture file into the start of a buffer, and gives the number of bytes: three a pixel.
    pub fn picture_row(&self, y: u16, palette: &Palette, into: &mut [u8]) -> usize
        requires row { y < self.now.height }
        requires room { 6141 ≤ length into.old }
        ensures count { result ≡ 3 * self.now.width }
        ensures most { result ≤ 6141 }
        ensures row { (picture : Picture) → RepresentsPicture self.now picture →
            into.new ≡ picture_row_of palette.now.colours picture y ++ drop result into.old }
    {
        let count = CHANNELS * usize::from(self.size.width);
        if self.is_marked(y) {
            self.marked_row(y, palette, &mut into[..count]);
        } else {
            ppm_row(palette, self.composed(y), &mut into[..count]);
        }
        count
    }

    // Puts a row of the picture file into a buffer, from both layers.
    #[inline(never)]
    fn marked_row(&self, y: u16, palette: &Palette, into: &mut [u8])
        requires row { y < self.now.height }
        requires room { length into.old ≡ 3 * self.now.width }
        ensures { (picture : Picture) → RepresentsPicture self.now picture → into.new ≡ picture_row_of palette.now.colours picture y }
    {
        let mut buffer = [0; 2047];
        let values = &mut buffer[..usize::from(self.size.width)];
        compose_row(
            self.foreground.row(self.size, y),
            self.background.row(self.size, y),
            values,
        );
        ppm_row(palette, values, into);
    }

    // Composes a row, and takes its mark away.
    fn compose(&mut self, y: u16)
        requires { y < self.old.height }
        ensures picture { SamePixels self.old self.new }
        ensures marks { (other : ℕ) → mark_at self.new.marks other ≡ (if other == y then false else mark_at self.old.marks other) }
    {
        self.marks.unset(y);
        self.composed
            .compose(self.size, y, &self.foreground, &self.background);
    }

    // Fills from x and y on, or up to them where flipped.
    fn fill(&mut self, x: u16, y: u16, control: u8)
        ensures { Draws self.old self.new (filled self.old.width self.old.height x y control) }
    {
        let (left, right) = span(x, self.size.width, has_bit(control, 0x10));
        let (top, bottom) = span(y, self.size.height, has_bit(control, 0x20));
        let area = Area {
            left,
            right,
            top,
            bottom,
        };
        let size = self.size;
        self.marks.set_fill(size, area);
        match layer_of(control) {
            Layer::Background => self.background.fill(size, area, control % 4),
            Layer::Foreground => self.foreground.fill(size, area, control % 4),
        }
    }

    // Colours the pixel at a place, if it lies on the screen.
    fn dot(&mut self, x: u16, y: u16, control: u8)
        ensures { Draws self.old self.new (dotted x y control) }
    {
        let size = self.size;
        if x < size.width && y < size.height {
            self.marks.set_dot(size, x, y);
            match layer_of(control) {
                Layer::Background => self.background.dot(size, x, y, control % 4),
                Layer::Foreground => self.foreground.dot(size, x, y, control % 4),
            }
        }
    }

    // Paints a tile, if a column of it lies on the screen.
    fn tile(&mut self, memory: &Memory, place: Moved, control: u8)
        ensures { Draws self.old self.new (record { layer = layer_of control; shape = tile_at memory.now place (look_of control) }) }
    {
        let size = self.size;
        if place.x >= size.width && place.x <= u16::MAX - 7 {
            return;
        }
        self.marks.set_tile(size, place);
        match layer_of(control) {
            Layer::Background => self.background.tile(size, memory, place, control),
            Layer::Foreground => self.foreground.tile(size, memory, place, control),
        }
    }
}

// The size of a new screen.
fn first_size() -> Size
    ensures { (result.width ≡ 512) × (result.height ≡ 320) }
{
    Size {
        width: 512,
        height: 320,
    }
}

// How far each tile of a sprite stands from the one before.
fn tile_step(auto: u8, control: u8) -> Moved
    ensures { result ≡ tile_step auto control }
{
    Moved {
        x: auto_step(auto, 0x02, side_step(has_bit(control, 0x10))),
        y: auto_step(auto, 0x01, side_step(has_bit(control, 0x20))),
        addr: auto_step(auto, 0x04, tile_size(has_bit(control, 0x80))),
    }
}

// Whether a screen may have this width or height.
fn is_size(size: u16) -> bool
    ensures { result ≡ (nat_le 8 size && nat_le size 2047) }
{
    (LEAST..=GREATEST).contains(&size)
}

// The part of a side that a fill covers: from a place on, or up to it where it is flipped.
fn span(at: u16, size: u16, flip: bool) -> (u16, u16)
    ensures ordered { result.0 ≤ result.1 }
    ensures within { result.1 ≤ size }
    ensures value { result ≡ filled_span at size flip }
{
    if flip {
        (0, at.min(size))
    } else {
        (at.min(size), size)
    }
}
