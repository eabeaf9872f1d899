//! The ports that more than one table names, as in the Varvara device reference. A short begins at the port that is given.

/// The state of the machine: not 0 ends the run.
pub const SYSTEM_STATE: u8 = 0x0f;

/// The console's vector, a short.
pub const CONSOLE_VECTOR: u8 = 0x10;

/// The byte of the console's last event.
pub const CONSOLE_READ: u8 = 0x12;

/// The kind of the console's last event.
pub const CONSOLE_TYPE: u8 = 0x17;

/// A byte for the standard output.
pub const CONSOLE_WRITE: u8 = 0x18;

/// The screen's vector, a short.
pub const SCREEN_VECTOR: u8 = 0x20;

/// The screen's width, a short.
pub const SCREEN_WIDTH: u8 = 0x22;

/// The screen's height, a short.
pub const SCREEN_HEIGHT: u8 = 0x24;

/// Which of the next three ports move on by themselves.
pub const SCREEN_AUTO: u8 = 0x26;

/// The column of what is drawn, a short.
pub const SCREEN_X: u8 = 0x28;

/// The row of what is drawn, a short.
pub const SCREEN_Y: u8 = 0x2a;

/// The address of a sprite, a short.
pub const SCREEN_ADDR: u8 = 0x2c;

/// The first voice's vector, a short. The ports of each further voice follow `VOICE_PORTS` behind.
pub const AUDIO_VECTOR: u8 = 0x30;

/// How many ports a voice has.
pub const VOICE_PORTS: u8 = 0x10;

/// The controller's vector, a short.
pub const CONTROLLER_VECTOR: u8 = 0x80;

/// The buttons of player 1.
pub const CONTROLLER_BUTTON: u8 = 0x82;

/// The key that was struck.
pub const CONTROLLER_KEY: u8 = 0x83;

/// The buttons of player 2.
pub const CONTROLLER_P2: u8 = 0x85;

/// The buttons of player 3.
pub const CONTROLLER_P3: u8 = 0x86;

/// The buttons of player 4.
pub const CONTROLLER_P4: u8 = 0x87;

/// The mouse's vector, a short.
pub const MOUSE_VECTOR: u8 = 0x90;

/// The mouse's column, a short.
pub const MOUSE_X: u8 = 0x92;

/// The mouse's row, a short.
pub const MOUSE_Y: u8 = 0x94;

/// The mouse's buttons.
pub const MOUSE_STATE: u8 = 0x96;

/// How far the wheel turned to the right, a short.
pub const MOUSE_SCROLL_X: u8 = 0x9a;

/// How far the wheel turned down, a short.
pub const MOUSE_SCROLL_Y: u8 = 0x9c;
