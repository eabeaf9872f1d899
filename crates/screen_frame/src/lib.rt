//! What a picture file is made of: the four colours, the pixel that is shown, and the bytes of a PPM file. No call takes memory.
#![tactic(auto)]

ghost use Rattle.std.specs.Prelude.{ℕ, ◌≡◌, ◌+◌, ◌*◌, ◌/◌, ◌%◌, ◌<◌, ◌≤◌, [], ◌∷◌, ◌++◌, All, length, take, slice_index_or};
ghost use Rattle.screen_frame.specs.Colours.{colour_short, colours_of, shown};
ghost use Rattle.screen_frame.specs.Ppm.{head_bytes, row_bytes};

use arrayvec::ArrayVec;
use itoa::Buffer;

/// How many bytes a pixel has in a picture file: red, green and blue.
pub const CHANNELS: usize = 3;

/// The four colours of a picture, each as red, green and blue.
#[derive(Clone, Copy)]
pub struct Palette {
    pub colours: [[u8; 3]; 4],
}

impl Palette {
    /// The colours that the bytes of the ports `08` to `0d` stand for: the shorts of red, green and blue have one
    /// nibble for each colour, from the highest.
    pub fn of(ports: &[u8; 6]) -> Palette
        ensures { result.colours ≡ colours_of ports.now }
    {
        Palette {
            colours: [
                colour(ports, 0x1000),
                colour(ports, 0x0100),
                colour(ports, 0x0010),
                colour(ports, 0x0001),
            ],
        }
    }

    // The colours with one byte more behind each.
    fn wide(&self) -> [[u8; 4]; 4]
        ensures { (value : ℕ) → value < 4 → take 3 (slice_index_or result value []) ≡ slice_index_or self.now.colours value [] }
    {
        let [first, second, third, fourth] = self.colours;
        [widen(first), widen(second), widen(third), widen(fourth)]
    }

    // The colour of a value.
    fn colour(&self, value: u8) -> [u8; 3]
        requires { value < 4 }
        ensures channels { result ≡ slice_index_or self.now.colours value [] }
        ensures count { length result ≡ 3 }
    {
        self.colours[usize::from(value)]
    }
}

// A colour with one byte more behind it.
fn widen(colour: [u8; 3]) -> [u8; 4]
    ensures { take 3 result ≡ colour }
{
    let [red, green, blue] = colour;
    [red, green, blue, 0]
}

// The colour whose nibbles have this weight in their shorts.
fn colour(ports: &[u8; 6], weight: u16) -> [u8; 3]
    requires { 0 < weight }
    ensures { result ≡ colour_short ports.now 0 / weight % 16 * 17 ∷ colour_short ports.now 2 / weight % 16 * 17
        ∷ colour_short ports.now 4 / weight % 16 * 17 ∷ [] }
{
    let [red, next_red, green, next_green, blue, next_blue] = *ports;
    [
        channel(red, next_red, weight),
        channel(green, next_green, weight),
        channel(blue, next_blue, weight),
    ]
}

// A nibble of a short, spread over a byte.
fn channel(high: u8, low: u8, weight: u16) -> u8
    requires { 0 < weight }
    ensures { result ≡ (high * 256 + low) / weight % 16 * 17 }
{
    let short = u16::from(high) * 256 + u16::from(low);
    (short / weight % 16) as u8 * 17
}

/// The pixel that is shown: the foreground's where it is not 0, else the background's.
pub fn compose(foreground: u8, background: u8) -> u8
    ensures { result ≡ shown foreground background }
{
    if foreground == 0 {
        background
    } else {
        foreground
    }
}

/// The head of a picture file of the kind P6.
pub fn ppm_head(width: u16, height: u16) -> ArrayVec<u8, 32>
    ensures { result.items ≡ head_bytes width height }
{
    let mut head = ArrayVec::new();
    let _ = head.try_extend_from_slice(b"P6\n");
    let _ = head.try_extend_from_slice(Buffer::new().format(width).as_bytes());
    let _ = head.try_extend_from_slice(b" ");
    let _ = head.try_extend_from_slice(Buffer::new().format(height).as_bytes());
    let _ = head.try_extend_from_slice(b"\n255\n");
    head
}

/// Puts the bytes of a row of values 0 to 3, three for each, into a buffer of exactly that length. It stays a function of its own: beside
/// what calls it, its loop would have fewer registers.
#[inline(never)]
pub fn ppm_row(palette: &Palette, row: &[u8], into: &mut [u8])
    requires values { All (λ value. value < 4) row.now }
    requires room { length into.old ≡ 3 * length row.now }
    ensures { into.new ≡ row_bytes palette.now.colours row.now }
{
    let wide = palette.wide();
    let mut i = 0;
    while i + 5 <= row.len() {
        put_two(
            into,
            3 * i,
            wide_of(&wide, row[i]),
            wide_of(&wide, row[i + 1]),
        );
        put_two(
            into,
            3 * i + 6,
            wide_of(&wide, row[i + 2]),
            wide_of(&wide, row[i + 3]),
        );
        i += 4;
    }
    for at in i..row.len() {
        let [red, green, blue] = palette.colour(row[at]);
        into[3 * at] = red;
        into[3 * at + 1] = green;
        into[3 * at + 2] = blue;
    }
}

// The colour of a value, with one byte more.
fn wide_of(wide: &[[u8; 4]; 4], value: u8) -> [u8; 4]
    requires { value < 4 }
    ensures { result ≡ slice_index_or wide.now value [] }
{
    wide[usize::from(value)]
}

// Puts two colours at a place, and one byte behind them, since four bytes are put at once.
fn put_two(into: &mut [u8], at: usize, first: [u8; 4], second: [u8; 4])
    requires { at + 7 ≤ length into.old }
    ensures prefix { take (at + 6) into.new ≡ take at into.old ++ (take 3 first ++ take 3 second) }
    ensures length { length into.new ≡ length into.old }
{
    put_wide(into, at, first);
    put_wide(into, at + 3, second);
}

// Puts the three bytes of a colour at a place, and one behind them.
fn put_wide(into: &mut [u8], at: usize, colour: [u8; 4])
    requires { at + 4 ≤ length into.old }
    ensures prefix { take (at + 3) into.new ≡ take at into.old ++ take 3 colour }
    ensures length { length into.new ≡ length into.old }
{
    into[at..at + 4].copy_from_slice(&colour);
}
