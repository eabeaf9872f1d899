//! Tiles: how their bytes, flips and blend make the colours of a row.
ghost use Rattle.std.specs.Prelude.{ℕ, ◌≡◌, ◌+◌, ◌-◌, ◌*◌, ◌%◌, ◌<◌, ◌≤◌, if◌then◌else◌, All, length, slice_index, unwrap_or};
ghost use Rattle.screen_layers.specs.Blending.{ink};
ghost use Rattle.screen_layers.specs.Control.{tile_size};
ghost use Rattle.screen_layers.specs.Drawings.{bit_number, bit_of, column_ink, row_painted, plane_byte, tile_byte, row_bytes};

use crate::control::has_bit;
use std::marker::Model;
use uxn_memory::Memory;

/// The colours of the values 0 to 3, each for the blends 0 to f.
const BLENDS: [[u8; 16]; 4] = [
    [0, 0, 0, 0, 1, 0, 1, 1, 2, 2, 0, 2, 3, 3, 3, 0],
    [0, 1, 2, 3, 0, 1, 2, 3, 0, 1, 2, 3, 0, 1, 2, 3],
    [1, 2, 3, 1, 1, 2, 3, 1, 1, 2, 3, 1, 1, 2, 3, 1],
    [2, 3, 1, 2, 2, 3, 1, 2, 2, 3, 1, 2, 2, 3, 1, 2],
];

/// The bits of the pixel beneath that value 0 keeps, for the blends 0 to f: all where it draws nothing. A table, since LLVM makes
/// a choice of each pixel again of a test.
const KEPT: [u8; 16] = [255, 0, 0, 0, 0, 255, 0, 0, 0, 0, 255, 0, 0, 0, 0, 255];

/// The colours of a tile's values. Contracts see the blend that they are for.
#[derive(Drop)]
pub struct Inks {
    blend: u8,
    colours: [u8; 4],
    kept: u8,
}

impl Model for Inks {
    ghost use Rattle.std.specs.Prelude.{ℕ};
    ghost use Rattle.screen_layers.specs.Blending.{AreInks};

    ghost Value = { ℕ };

    ghost view = { λ i. i.blend };

    ghost invariant = { λ i. AreInks i.blend i.colours i.kept };
}

impl Inks {
    /// The colours for a blend from 0 to f.
    pub fn of(blend: u8) -> Inks
        requires { blend < 16 }
        ensures { result ≡ blend }
    {
        let column = usize::from(blend);
        Inks {
            blend,
            colours: [
                BLENDS[0][column],
                BLENDS[1][column],
                BLENDS[2][column],
                BLENDS[3][column],
            ],
            kept: KEPT[column],
        }
    }

    /// The pixel once the value of these two bits was drawn over it.
    fn over(&self, low: bool, high: bool, under: u8) -> u8
        ensures pixel { result ≡ unwrap_or (ink self.now (bit_number low + 2 * bit_number high)) under }
        ensures colour { under < 4 → result < 4 }
    {
        let [first, second, third, fourth] = self.colours;
        choose(
            low,
            choose(high, fourth, second),
            choose(high, third, first | (under & self.kept)),
        )
    }
}

// One of two bytes.
fn choose(test: bool, yes: u8, no: u8) -> u8
    ensures { result ≡ (if test then yes else no) }
{
    if test { yes } else { no }
}

/// The bits that the columns of a tile show: from the highest to the lowest, or the other way round where it is flipped.
/// Contracts see whether it is.
#[derive(Drop)]
pub struct Columns {
    flip_x: bool,
    masks: [u8; 8],
}

impl Model for Columns {
    ghost use Rattle.std.specs.Prelude.{Bool};
    ghost use Rattle.screen_layers.specs.Blending.{AreMasks};

    ghost Value = { Bool };

    ghost view = { λ c. c.flip_x };

    ghost invariant = { λ c. AreMasks c.flip_x c.masks };
}

impl Columns {
    /// The columns of a tile, flipped or not.
    pub fn of(flip_x: bool) -> Columns
        ensures { result ≡ flip_x }
    {
        if flip_x {
            Columns {
                flip_x,
                masks: [1, 2, 4, 8, 16, 32, 64, 128],
            }
        } else {
            Columns {
                flip_x,
                masks: [128, 64, 32, 16, 8, 4, 2, 1],
            }
        }
    }

    // Whether a byte has the bit of a column.
    fn bit(&self, byte: u8, column: usize) -> bool
        requires { column < 8 }
        ensures { bit_number result ≡ bit_of byte (if self.now then column else 7 - column) }
    {
        byte & self.masks[column] != 0
    }
}

/// What a sprite's control byte says of each of its tiles.
#[derive(Drop)]
pub struct Look {
    pub columns: Columns,
    pub flip_y: bool,
    pub two_bits: bool,
    pub inks: Inks,
}

impl Look {
    ghost use Rattle.screen_layers.specs.Drawings.{look_of};

    /// The look that a control byte gives.
    pub fn of(control: u8) -> Look
        ensures { result ≡ look_of control }
    {
        Look {
            columns: Columns::of(has_bit(control, 0x10)),
            flip_y: has_bit(control, 0x20),
            two_bits: has_bit(control, 0x80),
            inks: Inks::of(control % 16),
        }
    }

    /// The low and the high byte that a row of the tile at an address shows.
    pub fn row_bytes(&self, memory: &Memory, at: u16, row: u16) -> (u8, u8)
        requires { row < 8 }
        ensures { result ≡ row_bytes memory.now at self.now row }
    {
        let place = self.plane_byte(row);
        (
            self.byte(memory, at, place),
            self.byte(memory, at, 8 + place),
        )
    }

    // The place of the low byte that a row shows.
    fn plane_byte(&self, row: u16) -> u16
        requires { row < 8 }
        ensures place { result ≡ plane_byte self.now.flip_y row }
        ensures bound { result < 8 }
    {
        if self.flip_y { 7 - row } else { row }
    }

    // A byte of the tile at an address, or 0 past its bytes.
    fn byte(&self, memory: &Memory, at: u16, place: u16) -> u8
        ensures { result ≡ tile_byte memory.now at (tile_size self.now.two_bits) place }
    {
        if place < tile_size(self.two_bits) {
            memory.get(at.wrapping_add(place))
        } else {
            0
        }
    }

    /// Paints the bytes of a row of a tile on a row of a layer, from the tile's x on, as far as they lie there.
    pub fn paint_row(&self, bytes: (u8, u8), x: u16, row: &mut [u8])
        requires { length row.old ≤ 2047 }
        ensures pixels { (k : ℕ) → k < length row.old → slice_index row.new k
            ≡ unwrap_or (row_painted x (column_ink self.now bytes) k) (slice_index row.old k) }
        ensures colours { All (λ colour. colour < 4) row.old → All (λ colour. colour < 4) row.new }
    {
        let from = usize::from(x);
        if from + 8 <= row.len() {
            self.paint_whole(bytes, &mut row[from..from + 8]);
        } else {
            self.paint_clipped(bytes, x, row);
        }
    }

    // Paints the bytes of a row on eight pixels.
    fn paint_whole(&self, bytes: (u8, u8), span: &mut [u8])
        requires { length span.old ≡ 8 }
        ensures pixels { (k : ℕ) → k < 8 → slice_index span.new k ≡ unwrap_or (column_ink self.now bytes k) (slice_index span.old k) }
        ensures colours { All (λ colour. colour < 4) span.old → All (λ colour. colour < 4) span.new }
    {
        for column in 0..8 {
            span[column] = self.pixel_over(bytes, column, span[column]);
        }
    }

    // Paints the bytes of a row, with a test for each column. Not inlined, so that the rows of a whole tile are a loop of their own.
    #[inline(never)]
    fn paint_clipped(&self, bytes: (u8, u8), x: u16, row: &mut [u8])
        requires { length row.old ≤ 2047 }
        ensures pixels { (k : ℕ) → k < length row.old → slice_index row.new k
            ≡ unwrap_or (row_painted x (column_ink self.now bytes) k) (slice_index row.old k) }
        ensures colours { All (λ colour. colour < 4) row.old → All (λ colour. colour < 4) row.new }
    {
        for column in 0..8 {
            let at = usize::from(x.wrapping_add(column));
            if at < row.len() {
                row[at] = self.pixel_over(bytes, usize::from(column), row[at]);
            }
        }
    }

    // The pixel at a column of a row, once it was drawn over what was there.
    #[tactic(auto, unfolding(crate::specs::Drawings::column_ink))]
    fn pixel_over(&self, bytes: (u8, u8), column: usize, under: u8) -> u8
        requires { column < 8 }
        ensures pixel { result ≡ unwrap_or (column_ink self.now bytes column) under }
        ensures colour { under < 4 → result < 4 }
    {
        self.inks.over(
            self.columns.bit(bytes.0, column),
            self.columns.bit(bytes.1, column),
            under,
        )
    }
}

/// How many bytes a tile has, whose pixels have two bits or one.
pub fn tile_size(two_bits: bool) -> u16
    ensures { result ≡ tile_size two_bits }
{
    if two_bits { 16 } else { 8 }
}
