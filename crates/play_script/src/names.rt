//! The names of buttons.

ghost use Rattle.std.specs.Prelude.{◌≡◌, find, option_copied, ◌==◌};
ghost use Rattle.text_lines.specs.ScriptRows.{buttons, mouse_buttons};
ghost use Rattle.play_script.specs.PlainText.{name_in};

use text_lines::{BUTTONS, MOUSE_BUTTONS, Named};

// The name of the controller's button with this bit, or nothing.
#[tactic(auto, unfolding(crate::specs::PlainText::name_in))]
pub(crate) fn button_name(mask: u8) -> &'static [u8]
    ensures { result.now ≡ name_in buttons mask }
{
    match row_of_bit(BUTTONS.as_slice(), mask) {
        Some(row) => row.0.as_bytes(),
        None => b"".as_slice(),
    }
}

// The name of the mouse's button with this bit, or nothing.
#[tactic(auto, unfolding(crate::specs::PlainText::name_in))]
pub(crate) fn mouse_button_name(mask: u8) -> &'static [u8]
    ensures { result.now ≡ name_in mouse_buttons mask }
{
    match row_of_bit(MOUSE_BUTTONS.as_slice(), mask) {
        Some(row) => row.0.as_bytes(),
        None => b"".as_slice(),
    }
}

fn row_of_bit(rows: &'static [Named<u8>], mask: u8) -> Option<&'static Named<u8>>
    ensures { option_copied result ≡ find (λ row. row.1 == mask) rows.now }
{
    rows.iter().find(|row| row.1 == mask)
}
