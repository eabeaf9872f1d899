//! The bytes that words represent.

ghost use Rattle.std.specs.Prelude.{◌≡◌, ◌∷◌, [], ◌≤◌, false, length};
ghost use Rattle.tal_words.specs.Forms.{encoded, encoded_reference, distance as distance_between};
ghost use Rattle.tal_words.specs.Forms.{short_bytes as bytes_of_short, low_byte as byte_of_short};
ghost use Rattle.tal_rom.specs.Filling.{is_reference};

use arrayvec::ArrayVec;
use tal_words::{Form, Rune};
use uxn_limits::addresses;

/// The opcode that puts the byte after it on the stack.
const LIT: u8 = 0x80;

/// The opcode that puts the short after it on the stack.
const LIT2: u8 = 0xa0;

/// The opcode that jumps by the short after it.
const JMI: u8 = 0x40;

/// The opcode that jumps by the short after it where a byte of the stack is not 0.
const JCI: u8 = 0x20;

/// The opcode that calls by the short after it.
const JSI: u8 = 0x60;

/// The low byte of a number.
fn low_byte(value: u64) -> u8
    ensures { result ≡ byte_of_short value }
{
    (value % 256) as u8
}

/// The low two bytes of a number, the higher one first.
fn short_bytes(value: u64) -> [u8; 2]
    ensures { result ≡ bytes_of_short value }
{
    [(value / 256 % 256) as u8, (value % 256) as u8]
}

/// The distance from the address of a byte or short to a target, less 2, as a number that is the same
/// modulo 65536.
fn distance(address: u64, target: u64) -> u64
    requires at { address ≤ 65537 }
    requires to { target ≤ 65535 }
    ensures { result ≡ distance_between address target }
{
    target + 2 * addresses::MEMORY_END - (address + 2)
}

/// At most three bytes.
fn few(bytes: &[u8]) -> ArrayVec<u8, 3>
    requires { length bytes.now ≤ 3 }
    ensures { result.items ≡ bytes.now }
{
    let mut items = ArrayVec::new();
    match items.try_extend_from_slice(bytes) {
        Ok(()) => items,
        Err(_) => unreachable!(),
    }
}

/// An opcode and a short.
fn short_behind(opcode: u8, short: u64) -> ArrayVec<u8, 3>
    ensures { result.items ≡ opcode ∷ bytes_of_short short }
{
    let [high, low] = short_bytes(short);
    few(&[opcode, high, low])
}

/// The bytes of a reference at an address.
pub fn reference_bytes(rune: Rune, address: u64, target: u64) -> ArrayVec<u8, 3>
    requires at { address ≤ 65536 }
    requires to { target ≤ 65535 }
    ensures { result.items ≡ encoded_reference rune address target }
{
    match rune {
        Rune::LitRel => few(&[LIT, low_byte(distance(address + 1, target))]),
        Rune::RawRel => few(&[low_byte(distance(address, target))]),
        Rune::LitZero => few(&[LIT, low_byte(target)]),
        Rune::RawZero => few(&[low_byte(target)]),
        Rune::LitAbs => short_behind(LIT2, target),
        Rune::RawAbs => few(&short_bytes(target)),
        Rune::Jmi => short_behind(JMI, distance(address + 1, target)),
        Rune::Jci => short_behind(JCI, distance(address + 1, target)),
        Rune::Jsi => short_behind(JSI, distance(address + 1, target)),
    }
}

/// The bytes of a word that is neither a text nor a reference.
pub fn few_bytes(form: Form) -> ArrayVec<u8, 3>
    requires { is_reference form ≡ false }
    ensures { result.items ≡ encoded form [] 0 0 }
{
    match form {
        Form::Raw1(byte) | Form::Op(byte) => few(&[byte]),
        Form::Lit1(byte) => few(&[LIT, byte]),
        Form::Raw2(short) => few(&short_bytes(short as u64)),
        Form::Lit2(short) => short_behind(LIT2, short as u64),
        _ => few(&[]),
    }
}
