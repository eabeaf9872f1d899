//! Numbers as text, without taking memory.
ghost use Rattle.std.specs.Prelude.{◌≡◌, decimal};
ghost use Rattle.uxn_io_traits.specs.NumberText.{hex_of_byte, hex_of_short};

use arrayvec::ArrayVec;
use itoa::Buffer;

/// Two hexadecimal digits, lower case.
pub fn hex_byte(value: u8) -> [u8; 2]
    ensures { result ≡ hex_of_byte value }
{
    let mut text = [0; 2];
    let _ = hex::encode_to_slice([value].as_slice(), &mut text);
    text
}

/// Four hexadecimal digits, lower case.
pub fn hex_short(value: u16) -> [u8; 4]
    ensures { result ≡ hex_of_short value }
{
    let [high, low] = hex_byte((value / 256) as u8);
    let [next, last] = hex_byte((value % 256) as u8);
    [high, low, next, last]
}

/// The number in decimal, without leading zeros.
pub fn decimal(value: u64) -> ArrayVec<u8, 20>
    ensures { result.items ≡ decimal value }
{
    let mut buffer = Buffer::new();
    let mut text = ArrayVec::new();
    let _ = text.try_extend_from_slice(buffer.format(value).as_bytes());
    text
}
