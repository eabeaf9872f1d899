//! The debug text, and the exit code of a state.
ghost use Rattle.std.specs.Prelude.{◌≡◌, ◌+◌, ◌%◌, ◌≤◌, ◌∷◌, ◌++◌, length};
ghost use Rattle.arrayvec.specs.ArrayVec.{array_vec_len};
ghost use Rattle.system_port.specs.DebugText.{eight_below, spaced, ring_line, debug_text_of, exit_code_of};

use arrayvec::ArrayVec;
use uxn_io_traits::hex_byte;
use uxn_stacks::Ring;

/// The greatest length of a debug text, and the length of each.
const LENGTH: usize = 56;

#[tactic(auto, unfolding(crate::specs::DebugText::eight_below))]
fn eight_below(ring: &Ring) -> [u8; 8]
    ensures { result ≡ eight_below ring.now }
{
    [
        ring.peek1(7),
        ring.peek1(6),
        ring.peek1(5),
        ring.peek1(4),
        ring.peek1(3),
        ring.peek1(2),
        ring.peek1(1),
        ring.peek1(0),
    ]
}

/// Puts a space and the two digits of a byte.
fn put_byte(text: &mut ArrayVec<u8, LENGTH>, byte: u8)
    requires { array_vec_len text.old + 3 ≤ 56 }
    ensures items { text.new.items ≡ text.old.items ++ spaced byte }
    ensures len { array_vec_len text.new ≡ array_vec_len text.old + 3 }
{
    let [high, low] = hex_byte(byte);
    text.push(b' ');
    text.push(high);
    text.push(low);
}

/// Puts the line of a stack under a name of three letters.
#[tactic(auto, unfolding(crate::specs::DebugText::ring_line))]
fn put_line(text: &mut ArrayVec<u8, LENGTH>, name: [u8; 3], ring: &Ring)
    requires { array_vec_len text.old + 28 ≤ 56 }
    ensures items { text.new.items ≡ text.old.items ++ ring_line name ring.now }
    ensures len { array_vec_len text.new ≡ array_vec_len text.old + 28 }
{
    let [first, second, third] = name;
    text.push(first);
    text.push(second);
    text.push(third);
    for byte in eight_below(ring) {
        put_byte(text, byte);
    }
    text.push(b'\n');
}

/// A line for each stack, `WST` for the working stack and `RST` for the return stack: the eight bytes below its
/// pointer, the deepest first, in two digits after a space.
#[tactic(auto, unfolding(crate::specs::DebugText::debug_text_of))]
pub fn debug_text(working: &Ring, returns: &Ring) -> ArrayVec<u8, 56>
    ensures { result.items ≡ debug_text_of working.now returns.now }
{
    let mut text = ArrayVec::new();
    put_line(&mut text, *b"WST", working);
    put_line(&mut text, *b"RST", returns);
    text
}

/// The exit code of a state: its low seven bits.
pub fn exit_code(state: u8) -> u8
    ensures { result ≡ exit_code_of state }
{
    state & 0x7f
}
