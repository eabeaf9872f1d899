//! The ports of the controller and the mouse: what an input stores at them, and what is 0 again after its vector.
#![tactic(auto)]

ghost use Rattle.std.specs.Prelude.{◌≡◌, ◌<◌, length, slice_index};
ghost use Rattle.input_ports.specs.Page.{stores_of, stores_after, vector_of, with_stores, short_stores, buttons_port, bits_set, bits_cleared};

use uxn_limits::ports;

/// Player 1, whose buttons `Down` and `Up` are.
const FIRST_PLAYER: u8 = 1;

/// What a player does at the controller or the mouse (Varvara device reference).
#[derive(Clone, Copy)]
pub enum Input {
    /// A key is struck; the byte is its character.
    Key(u8),
    /// The buttons of this mask of player 1 go down: `01` A, `02` B, `04` select, `08` start, `10` up, `20` down, `40` left, `80` right.
    Down(u8),
    /// The buttons of this mask of player 1 go up.
    Up(u8),
    /// The mouse is at this column and row, in pixels.
    Mouse(u16, u16),
    /// The mouse buttons of this mask go down.
    Press(u8),
    /// The mouse buttons of this mask go up.
    Release(u8),
    /// The wheel turns so far to the right and down.
    Scroll(i16, i16),
    /// The buttons of a player, 2 to 4, and a mask go down; another number is player 1's.
    DownOf(u8, u8),
    /// The buttons of a player, 2 to 4, and a mask go up; another number is player 1's.
    UpOf(u8, u8),
}

// The port of a player's buttons.
fn buttons_port(player: u8) -> u8
    ensures { result ≡ buttons_port player }
{
    match player {
        2 => ports::CONTROLLER_P2,
        3 => ports::CONTROLLER_P3,
        4 => ports::CONTROLLER_P4,
        _ => ports::CONTROLLER_BUTTON,
    }
}

// Sets bits of the byte at a port.
fn set_bits(page: &mut [u8; 256], port: u8, mask: u8)
    ensures { page.new ≡ with_stores page.old (bits_set (slice_index page.old) port mask) }
{
    page[usize::from(port)] |= mask;
}

// Clears bits of the byte at a port.
fn clear_bits(page: &mut [u8; 256], port: u8, mask: u8)
    ensures { page.new ≡ with_stores page.old (bits_cleared (slice_index page.old) port mask) }
{
    page[usize::from(port)] &= !mask;
}

/// Stores an input at its ports, as its vector finds them.
#[tactic(auto, unfolding(crate::specs::Page::stores_of))]
pub fn apply(page: &mut [u8; 256], input: &Input)
    ensures page { page.new ≡ with_stores page.old (stores_of (slice_index page.old) input.now) }
    ensures size { length page.new ≡ 256 }
{
    match *input {
        Input::Key(byte) => page[usize::from(ports::CONTROLLER_KEY)] = byte,
        Input::Down(mask) => set_bits(page, buttons_port(FIRST_PLAYER), mask),
        Input::Up(mask) => clear_bits(page, buttons_port(FIRST_PLAYER), mask),
        Input::DownOf(player, mask) => set_bits(page, buttons_port(player), mask),
        Input::UpOf(player, mask) => clear_bits(page, buttons_port(player), mask),
        Input::Mouse(x, y) => {
            store_short(page, ports::MOUSE_X, x);
            store_short(page, ports::MOUSE_Y, y);
        }
        Input::Press(mask) => set_bits(page, ports::MOUSE_STATE, mask),
        Input::Release(mask) => clear_bits(page, ports::MOUSE_STATE, mask),
        Input::Scroll(x, y) => {
            store_short(page, ports::MOUSE_SCROLL_X, x.cast_unsigned());
            store_short(page, ports::MOUSE_SCROLL_Y, y.cast_unsigned());
        }
    }
}

/// Stores 0 at the ports that are 0 again after the vector: the key, or both ways of the wheel.
#[tactic(auto, unfolding(crate::specs::Page::stores_after))]
pub fn settle(page: &mut [u8; 256], input: &Input)
    ensures page { page.new ≡ with_stores page.old (stores_after input.now) }
    ensures size { length page.new ≡ 256 }
{
    match *input {
        Input::Key(_) => page[usize::from(ports::CONTROLLER_KEY)] = 0,
        Input::Scroll(_, _) => {
            store_short(page, ports::MOUSE_SCROLL_X, 0);
            store_short(page, ports::MOUSE_SCROLL_Y, 0);
        }
        _ => {}
    }
}

/// The port that holds the vector of an input.
#[tactic(auto, unfolding(crate::specs::Page::vector_of))]
pub fn vector_port(input: &Input) -> u8
    ensures { result ≡ vector_of input.now }
{
    match *input {
        Input::Key(_) | Input::Down(_) | Input::Up(_) | Input::DownOf(_, _) | Input::UpOf(_, _) =>
            ports::CONTROLLER_VECTOR,
        Input::Mouse(_, _) | Input::Press(_) | Input::Release(_) | Input::Scroll(_, _) => {
            ports::MOUSE_VECTOR
        }
    }
}

// Stores a short, its high byte at the port and its low byte at the next one.
fn store_short(page: &mut [u8; 256], port: u8, value: u16)
    requires { port < 255 }
    ensures { page.new ≡ with_stores page.old (short_stores port value) }
{
    let at = usize::from(port);
    page[at] = (value / 256) as u8;
    page[at + 1] = (value % 256) as u8;
}
