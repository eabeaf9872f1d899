//! The ports of the screen.
ghost use Rattle.std.specs.Prelude.{◌≡◌, ◌<◌};
ghost use Rattle.varvara_bus.specs.State.{DeviceState, DevicesRepresent, device_clock, screen_refreshed};
ghost use Rattle.screen_frame.specs.Colours.{colours_of};
ghost use Rattle.screen_layers.specs.Layers.{Refreshes};
ghost use Rattle.varvara_bus.specs.History.{colour_bytes};
ghost use Rattle.varvara_bus.specs.Effect.{width_requested, height_requested, pixel_drawn, sprite_drawn};

use crate::devices::Devices;
use screen_frame::Palette;
use uxn_limits::ports::{
    SCREEN_ADDR, SCREEN_AUTO, SCREEN_HEIGHT, SCREEN_WIDTH, SCREEN_X, SCREEN_Y,
};
use uxn_memory::Memory;

/// The width of the screen.
pub(crate) fn width_of(devices: &Devices) -> u16
    ensures { result ≡ devices.now.screen.width }
{
    devices.screen.width()
}

/// The height of the screen.
pub(crate) fn height_of(devices: &Devices) -> u16
    ensures { result ≡ devices.now.screen.height }
{
    devices.screen.height()
}

/// The four colours that are stored.
pub(crate) fn palette(devices: &Devices) -> Palette
    ensures { (state : DeviceState) → DevicesRepresent devices.now state → result.colours ≡ colours_of (colour_bytes state.history) }
{
    Palette::of(&[
        devices.stored(0x08),
        devices.stored(0x09),
        devices.stored(0x0a),
        devices.stored(0x0b),
        devices.stored(0x0c),
        devices.stored(0x0d),
    ])
}

/// Asks the screen for the width that is stored, with the height that it has.
#[inline(never)]
pub(crate) fn ask_width(devices: &mut Devices)
    ensures stands { (state : DeviceState) → DevicesRepresent devices.old state → DevicesRepresent devices.new (width_requested state) }
    ensures frames { devices.new.time.frames ≡ devices.old.time.frames }
    ensures clock { device_clock devices.new ≡ device_clock devices.old }
    ensures root { devices.new.root ≡ devices.old.root }
{
    let width = devices.stored_short(SCREEN_WIDTH);
    let height = height_of(devices);
    let _ = devices.screen.resize(width, height);
}

/// Asks the screen for the height that is stored, with the width that it has.
#[inline(never)]
pub(crate) fn ask_height(devices: &mut Devices)
    ensures stands { (state : DeviceState) → DevicesRepresent devices.old state → DevicesRepresent devices.new (height_requested state) }
    ensures frames { devices.new.time.frames ≡ devices.old.time.frames }
    ensures clock { device_clock devices.new ≡ device_clock devices.old }
    ensures root { devices.new.root ≡ devices.old.root }
{
    let width = width_of(devices);
    let height = devices.stored_short(SCREEN_HEIGHT);
    let _ = devices.screen.resize(width, height);
}

/// Draws a pixel, or fills, and stores the next x and y.
#[inline(never)]
pub(crate) fn draw_pixel(devices: &mut Devices, control: u8)
    ensures stands { (state : DeviceState) → DevicesRepresent devices.old state → DevicesRepresent devices.new (pixel_drawn control state) }
    ensures frames { devices.new.time.frames ≡ devices.old.time.frames }
    ensures clock { device_clock devices.new ≡ device_clock devices.old }
    ensures root { devices.new.root ≡ devices.old.root }
{
    let x = devices.stored_short(SCREEN_X);
    let y = devices.stored_short(SCREEN_Y);
    let auto = devices.stored(SCREEN_AUTO);
    let (next_x, next_y) = devices.screen.pixel(x, y, auto, control);
    devices.store_short(SCREEN_X, next_x);
    devices.store_short(SCREEN_Y, next_y);
}

/// Draws tiles, and stores the next x, y and address.
#[inline(never)]
pub(crate) fn draw_sprite(devices: &mut Devices, memory: &Memory, control: u8)
    ensures stands { (state : DeviceState) → DevicesRepresent devices.old state
        → DevicesRepresent devices.new (sprite_drawn control memory.now state) }
    ensures frames { devices.new.time.frames ≡ devices.old.time.frames }
    ensures clock { device_clock devices.new ≡ device_clock devices.old }
    ensures root { devices.new.root ≡ devices.old.root }
{
    let x = devices.stored_short(SCREEN_X);
    let y = devices.stored_short(SCREEN_Y);
    let addr = devices.stored_short(SCREEN_ADDR);
    let auto = devices.stored(SCREEN_AUTO);
    let next = devices.screen.sprite(memory, x, y, addr, auto, control);
    devices.store_short(SCREEN_X, next.x);
    devices.store_short(SCREEN_Y, next.y);
    devices.store_short(SCREEN_ADDR, next.addr);
}

/// Composes the marked rows of the screen, takes their marks away, and says how many there were.
pub(crate) fn refresh(devices: &mut Devices) -> u16
    ensures screen { Refreshes devices.old.screen devices.new.screen result }
    ensures others { devices.new ≡ record devices.old { screen = devices.new.screen } }
    ensures stands { (state : DeviceState) → DevicesRepresent devices.old state → DevicesRepresent devices.new (screen_refreshed state) }
    ensures frames { devices.new.time.frames ≡ devices.old.time.frames }
    ensures clock { device_clock devices.new ≡ device_clock devices.old }
    ensures root { devices.new.root ≡ devices.old.root }
{
    devices.screen.refresh()
}
