//! The ports of the voices.
ghost use Rattle.std.specs.Prelude.{◌≡◌, ◌<◌, ◌≤◌, true, false, [], ◌∷◌};
ghost use Rattle.audio_mixer.specs.Voices.{all_play_on};
ghost use Rattle.audio_mixer.specs.Sounds.{frame_of, endings, position_of, output_of};
ghost use Rattle.varvara_bus.specs.State.{DeviceState, DevicesRepresent, device_clock, rendered};
ghost use Rattle.varvara_bus.specs.Voices.{note_at};
ghost use Rattle.varvara_bus.specs.Effect.{note_started};

use crate::devices::Devices;
use crate::ports::Voice;
use audio_mixer::Start;
use uxn_memory::Memory;

/// The note that is stored at the ports of a voice, the first of which is given.
fn note_at(devices: &Devices, base: u8) -> Start
    requires { base ≤ 0x60 }
    ensures { (state : DeviceState) → DevicesRepresent devices.now state → result ≡ note_at state.history base }
{
    Start {
        adsr: devices.stored_short(base + 0x08),
        length: devices.stored_short(base + 0x0a),
        addr: devices.stored_short(base + 0x0c),
        volume: devices.stored(base + 0x0e),
        pitch: devices.stored(base + 0x0f),
    }
}

/// Starts the note that is stored at the ports of a voice.
#[inline(never)]
pub(crate) fn start_note(devices: &mut Devices, voice: Voice)
    ensures stands { (state : DeviceState) → DevicesRepresent devices.old state → DevicesRepresent devices.new (note_started voice state) }
    ensures frames { devices.new.time.frames ≡ devices.old.time.frames }
    ensures clock { device_clock devices.new ≡ device_clock devices.old }
    ensures root { devices.new.root ≡ devices.old.root }
{
    let note = note_at(devices, voice.base());
    devices.mixer.start(voice.number(), &note);
}

/// The place in the sample of a voice, 0 to 3.
#[inline(never)]
pub(crate) fn position(devices: &Devices, voice: u8) -> u16
    requires { voice < 4 }
    ensures { (state : DeviceState) → DevicesRepresent devices.now state → result ≡ position_of (state.sounds voice) }
{
    devices.mixer.position(voice)
}

/// How loud a voice, 0 to 3, is.
#[inline(never)]
pub(crate) fn output(devices: &Devices, voice: u8) -> u8
    requires { voice < 4 }
    ensures { (state : DeviceState) → DevicesRepresent devices.now state → result ≡ output_of (state.sounds voice) }
{
    devices.mixer.output(voice)
}

/// Renders a frame of samples, and says which voices' notes ended in it.
pub(crate) fn render(devices: &mut Devices, memory: &Memory, into: &mut [i16; 1470]) -> [bool; 4]
    ensures frame { (state : DeviceState) → DevicesRepresent devices.old state → into.new ≡ frame_of memory.now state.sounds }
    ensures ends { (state : DeviceState) → DevicesRepresent devices.old state → result ≡ endings 735 state.sounds }
    ensures stands { (state : DeviceState) → DevicesRepresent devices.old state → DevicesRepresent devices.new (rendered state) }
    ensures page { devices.new.page ≡ devices.old.page }
    ensures frames { devices.new.time.frames ≡ devices.old.time.frames }
    ensures clock { device_clock devices.new ≡ device_clock devices.old }
    ensures root { devices.new.root ≡ devices.old.root }
{
    devices.mixer.render(memory, into)
}

/// Whether no voice plays a note that will end.
pub(crate) fn is_endless(devices: &Devices) -> bool
    ensures { result ≡ all_play_on devices.now.mixer }
{
    devices.mixer.is_endless()
}

/// Lets a frame pass of which no samples are requested and in which no note can end.
pub(crate) fn pass_frame(devices: &mut Devices)
    requires { all_play_on devices.old.mixer ≡ true }
    ensures ends { (state : DeviceState) → DevicesRepresent devices.old state → endings 735 state.sounds ≡ false ∷ false ∷ false ∷ false ∷ [] }
    ensures stands { (state : DeviceState) → DevicesRepresent devices.old state → DevicesRepresent devices.new (rendered state) }
    ensures frames { devices.new.time.frames ≡ devices.old.time.frames }
    ensures clock { device_clock devices.new ≡ device_clock devices.old }
    ensures root { devices.new.root ≡ devices.old.root }
{
    devices.mixer.pass();
}
