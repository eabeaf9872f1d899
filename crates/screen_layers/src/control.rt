//! What the control byte of a drawing and the auto byte say.
ghost use Rattle.std.specs.Prelude.{◌≡◌, ◌<◌};
ghost use Rattle.screen_layers.specs.Control.{has_bit, layer_of, auto_step, side_step};

/// One of the two layers of a screen; the foreground lies over the background.
#[derive(Clone, Copy)]
pub enum Layer {
    Background,
    Foreground,
}

/// Whether a byte has a bit, which is a power of 2.
pub fn has_bit(byte: u8, bit: u8) -> bool
    requires { 0 < bit }
    ensures { result ≡ has_bit byte bit }
{
    byte / bit % 2 == 1
}

/// The layer that a control byte chooses.
pub fn layer_of(control: u8) -> Layer
    ensures { result ≡ layer_of control }
{
    if has_bit(control, 0x40) {
        Layer::Foreground
    } else {
        Layer::Background
    }
}

/// So much where auto has the bit, else 0.
pub fn auto_step(auto: u8, bit: u8, step: u16) -> u16
    requires { 0 < bit }
    ensures { result ≡ auto_step auto bit step }
{
    if has_bit(auto, bit) { step } else { 0 }
}

/// The eight pixels of a tile's side, back where it is flipped.
pub fn side_step(flip: bool) -> u16
    ensures { result ≡ side_step flip }
{
    if flip { 8u16.wrapping_neg() } else { 8 }
}
