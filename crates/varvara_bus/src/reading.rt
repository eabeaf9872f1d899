//! What ports read.
ghost use Rattle.std.specs.Prelude.{◌≡◌, ◌/◌, ◌%◌};
ghost use Rattle.varvara_bus.specs.State.{DeviceState, DevicesRepresent};
ghost use Rattle.varvara_bus.specs.ReadsPort.{read_of};

use crate::devices::Devices;
use crate::screen::{height_of, width_of};
use crate::voices::{output, position};
use uxn_opcodes::Core;

/// The high byte of a short.
#[inline(always)]
fn high(short: u16) -> u8
    ensures { result ≡ short / 256 }
{
    (short / 256) as u8
}

/// The low byte of a short.
#[inline(always)]
fn low(short: u16) -> u8
    ensures { result ≡ short % 256 }
{
    (short % 256) as u8
}

/// What a port reads: the byte that its device shows there, else the byte that was last stored.
#[inline(always)]
#[tactic(auto, unfolding(crate::specs::ReadsPort::read_of))]
pub(crate) fn read(devices: &Devices, core: &Core, port: u8) -> u8
    ensures { (state : DeviceState) → DevicesRepresent devices.now state → result ≡ read_of state core.now port }
{
    match port {
        0x04 => core.working.pointer(),
        0x05 => core.returns.pointer(),
        0x22 => high(width_of(devices)),
        0x23 => low(width_of(devices)),
        0x24 => high(height_of(devices)),
        0x25 => low(height_of(devices)),
        0x32 => high(position(devices, 0)),
        0x33 => low(position(devices, 0)),
        0x34 => output(devices, 0),
        0x42 => high(position(devices, 1)),
        0x43 => low(position(devices, 1)),
        0x44 => output(devices, 1),
        0x52 => high(position(devices, 2)),
        0x53 => low(position(devices, 2)),
        0x54 => output(devices, 2),
        0x62 => high(position(devices, 3)),
        0x63 => low(position(devices, 3)),
        0x64 => output(devices, 3),
        0xc0 => high(devices.time.shown().year),
        0xc1 => low(devices.time.shown().year),
        0xc2 => devices.time.shown().month,
        0xc3 => devices.time.shown().day,
        0xc4 => devices.time.shown().hour,
        0xc5 => devices.time.shown().minute,
        0xc6 => devices.time.shown().second,
        0xc7 => devices.time.shown().weekday,
        0xc8 => high(devices.time.shown().year_day),
        0xc9 => low(devices.time.shown().year_day),
        0xca => 0,
        _ => devices.stored(port),
    }
}
